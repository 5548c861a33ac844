ghost use Rattle.std.specs.Prelude.{◌≡◌, length, map, fold as folded};
ghost use Rattle.vcode_base.specs.Elements.{fold_of};
ghost use Rattle.vcode_base.specs.Kinds.{AreLengths};
ghost use Rattle.vcode_base.specs.Segments.{total, segments};

use crate::descriptors::end_of;
use crate::folds::{OverSegments, by_fold};
use vcode_base::Fold;
use vcode_base::element::{Combine, Product};

/// How many elements at the front of a segment are multiplied without a loop, which for few is faster.
const FEW: usize = 16;

/// `+_REDUCE` and the other reductions: writes the fold of each segment, which of an empty one is
/// the identity.
///
/// `elements` are in the segments of `descriptor`; `out` has one element a segment.
pub(crate) fn reduce(fold: Fold, elements: &[i64], descriptor: &[i64], out: &mut [i64])
    requires lengths { AreLengths descriptor.now }
    requires whole { length elements.now ≡ total descriptor.now }
    requires room { length out.old ≡ length descriptor.now }
    ensures { out.new ≡ map (fold_of fold) (segments descriptor.now elements.now) }
{
    match fold {
        Fold::Product => Reduction::<FEW>::write::<Product>(elements, descriptor, 1, out),
        _ => by_fold::<Reduction<0>>(fold, elements, descriptor, out),
    }
}

/// The fold of each segment. The first `ROW` elements are combined without a loop.
struct Reduction<const ROW: usize>;

impl<const ROW: usize> OverSegments for Reduction<ROW> {
    ghost room = { λ _ descriptor. length descriptor };

    ghost written = { λ combination start. map (folded combination start) };

    fn write<S: Combine>(elements: &[i64], descriptor: &[i64], start: i64, out: &mut [i64]) {
        let mut begin = 0;
        for segment in 0..descriptor.len() {
            let end = end_of(descriptor, segment, begin);
            out[segment] = reduce_segment::<S, ROW>(&elements[begin..end], start);
            begin = end;
        }
    }
}

/// The fold of the elements of one segment. A loop of a known number of turns becomes a row of combinations.
#[tactic(auto, using(crate::proofs::FoldLemmas::folds))]
fn reduce_segment<S: Combine, const ROW: usize>(elements: &[i64], start: i64) -> i64
    ensures { result ≡ folded S.combination start elements.now }
{
    let mut so_far = start;
    for i in 0..ROW {
        if i == elements.len() {
            return so_far;
        }
        so_far = S::combine(so_far, elements[i]);
    }
    reduce_all::<S>(&elements[ROW..], so_far)
}

/// The same in one loop.
#[tactic(auto, using(crate::proofs::FoldLemmas::folds))]
fn reduce_all<S: Combine>(elements: &[i64], start: i64) -> i64
    ensures { result ≡ folded S.combination start elements.now }
{
    let mut so_far = start;
    for element in elements {
        so_far = S::combine(so_far, *element);
    }
    so_far
}

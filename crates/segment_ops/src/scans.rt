ghost use Rattle.std.specs.Prelude.{◌≡◌, length, flat_map};
ghost use Rattle.vcode_base.specs.Kinds.{AreLengths};
ghost use Rattle.vcode_base.specs.Segments.{total, segments, folds_before};
ghost use Rattle.segment_ops.specs.Folds.{exclusive_scan};

use crate::descriptors::end_of;
use crate::folds::{OverSegments, by_fold};
use vcode_base::Fold;
use vcode_base::element::Combine;

/// `+_SCAN` and the other scans: each element of the result combines the elements before its place in
/// the segment, so the first one of each segment is the identity.
///
/// `elements` and `out` are in the segments of `descriptor`.
pub(crate) fn scan(fold: Fold, elements: &[i64], descriptor: &[i64], out: &mut [i64])
    requires lengths { AreLengths descriptor.now }
    requires whole { length elements.now ≡ total descriptor.now }
    requires room { length out.old ≡ length elements.now }
    ensures { out.new ≡ flat_map (folds_before fold) (segments descriptor.now elements.now) }
{
    by_fold::<ExclusiveScan>(fold, elements, descriptor, out);
}

/// At each place of a segment the fold of the elements before it.
struct ExclusiveScan;

impl OverSegments for ExclusiveScan {
    ghost room = { λ elements _. length elements };

    ghost written = { λ combination start. flat_map (exclusive_scan combination start) };

    #[tactic(auto, using(crate::proofs::SegmentLemmas::total_more, crate::proofs::SegmentLemmas::flat_walk))]
    fn write<S: Combine>(elements: &[i64], descriptor: &[i64], start: i64, out: &mut [i64]) {
        let mut begin = 0;
        for segment in 0..descriptor.len() {
            let end = end_of(descriptor, segment, begin);
            scan_segment::<S>(&elements[begin..end], start, &mut out[begin..end]);
            begin = end;
        }
    }
}

/// Writes the scan of one segment.
#[tactic(auto, using(crate::proofs::FoldLemmas::scans))]
fn scan_segment<S: Combine>(elements: &[i64], start: i64, out: &mut [i64])
    requires { length out.old ≡ length elements.now }
    ensures { out.new ≡ exclusive_scan S.combination start elements.now }
{
    let mut so_far = start;
    for i in 0..elements.len() {
        out[i] = so_far;
        so_far = S::combine(so_far, elements[i]);
    }
}

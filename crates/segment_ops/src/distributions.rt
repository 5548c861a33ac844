ghost use Rattle.std.specs.Prelude.{◌≡◌, ◌≤◌, length, take, flat_map, replicate, zip};
ghost use Rattle.vcode_base.specs.Kinds.{AreLengths};
ghost use Rattle.vcode_base.specs.Segments.{total, sizes, progression};

use crate::descriptors::end_of;

/// A segment of this many places up to [`SHORT`] is written together with what follows it.
const FEWEST: usize = 4;

const SHORT: usize = 16;

/// `DIST`: writes at each position the element of its segment.
///
/// `elements` has one element a segment of `descriptor`, and `out` is in its segments. INT and BOOL
/// have one meaning.
#[tactic(auto, using(crate::proofs::SegmentLemmas::walks, crate::proofs::SegmentLemmas::distributed_one))]
pub(crate) fn distribute(elements: &[i64], descriptor: &[i64], out: &mut [i64])
    requires lengths { AreLengths descriptor.now }
    requires each { length elements.now ≡ length descriptor.now }
    requires room { length out.old ≡ total descriptor.now }
    ensures { out.new
        ≡ flat_map (λ (n, x). replicate n x) (zip (sizes descriptor.now) elements.now) }
{
    if descriptor.len() == 1 {
        fill_with(elements[0], out);
        return;
    }
    let mut begin = 0;
    for segment in 0..descriptor.len() {
        let end = end_of(descriptor, segment, begin);
        spread(elements[segment], end - begin, &mut out[begin..]);
        begin = end;
    }
}

/// Writes the element to the first `count` places of `out`, and to those after them as it likes.
#[tactic(auto, using(crate::proofs::SegmentLemmas::spreads))]
fn spread(element: i64, count: usize, out: &mut [i64])
    requires room { count ≤ length out.old }
    ensures { take count out.new ≡ replicate count element }
{
    if FEWEST <= count && count <= SHORT && SHORT <= out.len() {
        // To write a number of places that is known takes no loop.
        out[..SHORT].fill(element);
        return;
    }
    fill_with(element, &mut out[..count]);
}

/// Fills `out` with the element. To fill many places with a constant is faster.
fn fill_with(element: i64, out: &mut [i64])
    ensures { out.new ≡ replicate (length out.old) element }
{
    if element == 0 && SHORT < out.len() {
        out.fill(0);
        return;
    }
    out.fill(element);
}

/// `INDEX`: writes at index `i` of each segment the segment's number of `firsts` and `i` times that
/// of `strides`, modulo 2^64.
///
/// `firsts` and `strides` have one element a segment of `descriptor`, and `out` is in its segments.
pub(crate) fn index(firsts: &[i64], strides: &[i64], descriptor: &[i64], out: &mut [i64])
    requires lengths { AreLengths descriptor.now }
    requires each_first { length firsts.now ≡ length descriptor.now }
    requires each_stride { length strides.now ≡ length descriptor.now }
    requires room { length out.old ≡ total descriptor.now }
    ensures { let numbers = zip firsts.now strides.now
        in out.new ≡ flat_map (λ (n, p). progression n p.0 p.1) (zip (sizes descriptor.now) numbers) }
{
    let mut begin = 0;
    for segment in 0..descriptor.len() {
        let end = end_of(descriptor, segment, begin);
        progress(firsts[segment], strides[segment], &mut out[begin..end]);
        begin = end;
    }
}

/// Fills `out` with the numbers from `first` on, each `stride` more than the one before.
#[tactic(auto, using(crate::proofs::ProgressionLemmas::progressions))]
fn progress(first: i64, stride: i64, out: &mut [i64])
    ensures { out.new ≡ progression (length out.old) first stride }
{
    let mut next = first;
    for element in out.iter_mut() {
        *element = next;
        next = next.wrapping_add(stride);
    }
}

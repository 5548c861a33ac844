ghost use Rattle.std.specs.Prelude.{◌≡◌, ◌≤◌, ◌<◌, ◌+◌, ◌^◌, pos, length, drop, slice_index_or, unsigned_abs};
ghost use Rattle.std.specs.Prelude.{◌∷◌, [], ◌↔◌, IsTrue};
ghost use Rattle.segment_ops.specs.Results.{HasResultOrFault};
ghost use Rattle.vcode_base.specs.Kinds.{AreLengths, HasKind};
ghost use Rattle.vcode_base.specs.declared.limits.TheConstants.{MOST_TOTAL, MOST_WORDS};
ghost use Rattle.vcode_base.specs.declared.kind.Kind.TheVariants.{Segdes};
ghost use Rattle.vcode_base.specs.Meaning.{segmented_result};
ghost use Rattle.vcode_base.specs.Segments.{total};
ghost use Rattle.vcode_base.specs.declared.op.Segmented.TheVariants.{MakeSegdes, Lengths};

use vcode_base::limits::{MOST_TOTAL, MOST_WORDS};
use vcode_base::{DataFault, Kind};

/// The total of a descriptor. That of one segment alone takes no loop.
#[inline(always)]
pub(crate) fn total_of(descriptor: &[i64]) -> u64
    requires lengths { AreLengths descriptor.now }
    requires small { total descriptor.now ≤ MOST_TOTAL }
    ensures { result ≡ total descriptor.now }
{
    match descriptor {
        [size] => *size as u64,
        _ => total_of_many(descriptor),
    }
}

/// The same for any number of segments. It is a call of its own, so that what needs a total stays short.
#[inline(never)]
fn total_of_many(descriptor: &[i64]) -> u64
    requires lengths { AreLengths descriptor.now }
    requires small { total descriptor.now ≤ MOST_TOTAL }
    ensures { result ≡ total descriptor.now }
{
    let mut sum: u64 = 0;
    for size in descriptor {
        sum += *size as u64;
    }
    sum
}

/// The end of a segment that begins at `begin`: `segment` is its number.
pub(crate) fn end_of(descriptor: &[i64], segment: usize, begin: usize) -> usize
    requires lengths { AreLengths descriptor.now }
    requires number { segment < length descriptor.now }
    requires within { begin + total (drop segment descriptor.now) < 2 ^ 64 }
    ensures { result ≡ begin + unsigned_abs (slice_index_or descriptor.now segment (pos 0)) }
{
    begin + descriptor[segment] as usize
}

/// `MAKE_SEGDES`: writes the descriptor of these segment lengths, which are its words.
///
/// # Errors
///
/// [`BadLength`](DataFault::BadLength) if a length is negative or their total, found without
/// wrapping, is above 4,294,967,295. Then `out` holds no result.
pub(crate) fn make_descriptor(lengths: &[i64], out: &mut [i64]) -> Result<(), DataFault>
    requires room { length out.old ≡ length lengths.now }
    ensures { HasResultOrFault MakeSegdes (lengths.now ∷ []) result out.new }
{
    if copy_lengths(lengths, out) {
        Ok(())
    } else {
        Err(DataFault::BadLength)
    }
}

/// Copies the words, and answers whether they are a descriptor.
fn copy_lengths(lengths: &[i64], out: &mut [i64]) -> bool
    requires room { length out.old ≡ length lengths.now }
    ensures copied { out.new ≡ lengths.now }
    ensures kind { IsTrue result ↔ HasKind Segdes lengths.now }
{
    if lengths.len() > MOST_WORDS {
        out.copy_from_slice(lengths);
        return Kind::Segdes.holds(lengths);
    }
    copy_few_lengths(lengths, out)
}

/// The same in one pass, for so few words that their sum can't wrap if each is a length.
#[tactic(auto, using(crate::proofs::DescriptorLemmas::sizes_checked))]
fn copy_few_lengths(lengths: &[i64], out: &mut [i64]) -> bool
    requires room { length out.old ≡ length lengths.now }
    requires few { length lengths.now ≤ MOST_WORDS }
    ensures copied { out.new ≡ lengths.now }
    ensures kind { IsTrue result ↔ HasKind Segdes lengths.now }
{
    let mut any_large = false;
    let mut sum: u64 = 0;
    for i in 0..lengths.len() {
        let size = lengths[i];
        out[i] = size;
        // A negative number without its sign is a large one.
        any_large |= size.cast_unsigned() > MOST_TOTAL;
        sum = sum.wrapping_add(size.cast_unsigned());
    }
    !any_large && sum <= MOST_TOTAL
}

/// `LENGTHS`: writes the segment lengths of a descriptor, which are its words.
pub(crate) fn lengths(descriptor: &[i64], out: &mut [i64])
    requires room { length out.old ≡ length descriptor.now }
    ensures { out.new ≡ segmented_result Lengths (descriptor.now ∷ []) }
{
    out.copy_from_slice(descriptor);
}

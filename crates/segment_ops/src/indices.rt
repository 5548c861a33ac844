ghost use Rattle.std.specs.Prelude.{◌≡◌, ◌≤ℤ◌, pos, length, unsigned_abs, true, false};
ghost use Rattle.segment_ops.specs.Indices.{some_outside};
ghost use Rattle.vcode_base.specs.Elements.{is_outside};
ghost use Rattle.vcode_base.specs.Segments.{has_twice};

/// Of a segment with at most this many indices the order is not looked at.
const SHORT: usize = 64;

/// Indices that do not rise are mostly found among this many.
const FIRST: usize = 16;

/// Whether an index is none of the places `0..size` of a segment.
pub(crate) fn is_outside(size: i64, index: i64) -> bool
    requires { pos 0 ≤ℤ size }
    ensures { result ≡ is_outside (unsigned_abs size) index }
{
    // As an unsigned number a negative one is greater than any size.
    index.cast_unsigned() >= size.cast_unsigned()
}

/// Whether it was found that the indices rise and are all of the places `0..size`, so that no two are
/// equal. It is not tried with few indices.
pub(crate) fn rise_within(indices: &[i64], size: i64) -> bool
    requires { pos 0 ≤ℤ size }
    ensures inside { result ≡ true → some_outside (unsigned_abs size) indices.now ≡ false }
    ensures once { result ≡ true → has_twice indices.now ≡ false }
{
    if indices.len() <= SHORT {
        return false;
    }
    if !rise(&indices[..FIRST], size) {
        return false;
    }
    rise(indices, size)
}

/// Whether the indices rise and are all of the places `0..size`. It goes over all of them, without
/// leaving early.
#[tactic(auto, using(crate::proofs::PlaceLemmas::bounds))]
fn rise(indices: &[i64], size: i64) -> bool
    requires { pos 0 ≤ℤ size }
    ensures inside { result ≡ true → some_outside (unsigned_abs size) indices.now ≡ false }
    ensures once { result ≡ true → has_twice indices.now ≡ false }
{
    let mut last: i64 = -1;
    let mut rising = true;
    for index in indices {
        rising &= last < *index;
        last = *index;
    }
    if !rising {
        return false;
    }
    last < size
}

ghost use Rattle.std.specs.Prelude.{◌≡◌, ℤ, length, map, Bool, true, false, MatchResult};
ghost use Rattle.std.specs.List.{list_any};
ghost use Rattle.vcode_base.specs.Meaning.{two_by_two};
ghost use Rattle.vector_ops.specs.Alike.{AreAll};

use vcode_base::DataFault;
use vcode_base::element::Combine;

/// What makes one element of the two at its place.
pub trait PairStep {
    ghost gives: { ℤ → ℤ → ℤ };

    // the right elements at which nothing is made
    ghost refuses: { ℤ → Bool } = { λ _. false };

    fn apply(left: i64, right: i64) -> i64
        requires { refuses right ≡ false }
        ensures { result ≡ gives left right };
}

/// What any two numbers make refuses none.
impl<C: Combine> PairStep for C {
    ghost gives = { C.combination };

    fn apply(left: i64, right: i64) -> i64 {
        C::combine(left, right)
    }
}

/// What makes one element of the one at its place.
pub trait ElementStep {
    ghost gives: { ℤ → ℤ };

    fn apply(element: i64) -> i64
        ensures { result ≡ gives element };
}

/// A test of one element.
pub trait ElementTest {
    ghost holds: { ℤ → Bool };

    fn test(element: i64) -> bool
        ensures { result ≡ holds element };
}

/// Writes the step's element of each two elements at one place. One element alone takes no loop.
#[inline(always)]
#[tactic(auto, using(crate::proofs::Lists::one_place))]
pub(crate) fn fill_pairs<S: PairStep>(left: &[i64], right: &[i64], out: &mut [i64])
    requires same { length right.now ≡ length left.now }
    requires room { length out.old ≡ length left.now }
    requires allowed { list_any S.refuses right.now ≡ false }
    ensures { out.new ≡ two_by_two S.gives left.now right.now }
{
    if out.len() == 1 {
        out[0] = S::apply(left[0], right[0]);
        return;
    }
    fill_many_pairs::<S>(left, right, out);
}

/// The same for any number of elements. It is a call of its own, as the other loops over many elements are, so that one
/// element alone is tested for at once.
#[inline(never)]
#[tactic(auto, using(crate::proofs::Lists::places))]
fn fill_many_pairs<S: PairStep>(left: &[i64], right: &[i64], out: &mut [i64])
    requires same { length right.now ≡ length left.now }
    requires room { length out.old ≡ length left.now }
    requires allowed { list_any S.refuses right.now ≡ false }
    ensures { out.new ≡ two_by_two S.gives left.now right.now }
{
    for i in 0..out.len() {
        out[i] = S::apply(left[i], right[i]);
    }
}

/// The same, unless the test holds at some right element: then there is the fault.
#[inline(always)]
pub(crate) fn fill_pairs_unless<T: ElementTest, S: PairStep>(
    fault: DataFault,
    left: &[i64],
    right: &[i64],
    out: &mut [i64],
) -> Result<(), DataFault>
    requires same { length right.now ≡ length left.now }
    requires room { length out.old ≡ length left.now }
    requires tested { list_any S.refuses right.now ≡ list_any T.holds right.now }
    ensures { MatchResult result
        (λ _. (list_any T.holds right.now ≡ false)
        × (out.new ≡ two_by_two S.gives left.now right.now))
        (λ found. (list_any T.holds right.now ≡ true) × (found ≡ fault)) }
{
    if any::<T>(right) {
        return Err(fault);
    }
    fill_pairs::<S>(left, right, out);
    Ok(())
}

/// Writes the step's element of each left element and one right element.
#[tactic(auto, using(crate::proofs::Lists::places))]
pub(crate) fn fill_by<S: PairStep>(left: &[i64], right: i64, out: &mut [i64])
    requires room { length out.old ≡ length left.now }
    requires allowed { S.refuses right ≡ false }
    ensures { out.new ≡ map (λ x. S.gives x right) left.now }
{
    for i in 0..out.len() {
        out[i] = S::apply(left[i], right);
    }
}

/// Whether each element is this number. It goes over all of them, without leaving early.
pub(crate) fn are_all(elements: &[i64], number: i64) -> bool
    ensures { result ≡ true → AreAll number elements.now }
{
    let mut alike = true;
    for element in elements {
        alike &= *element == number;
    }
    alike
}

/// Writes the step's element of each element. One element alone takes no loop.
#[inline(always)]
#[tactic(auto, using(crate::proofs::Lists::one_place))]
pub(crate) fn fill_each<S: ElementStep>(elements: &[i64], out: &mut [i64])
    requires room { length out.old ≡ length elements.now }
    ensures { out.new ≡ map S.gives elements.now }
{
    if out.len() == 1 {
        out[0] = S::apply(elements[0]);
        return;
    }
    fill_many::<S>(elements, out);
}

/// The same for any number of elements.
#[inline(never)]
#[tactic(auto, using(crate::proofs::Lists::places))]
fn fill_many<S: ElementStep>(elements: &[i64], out: &mut [i64])
    requires room { length out.old ≡ length elements.now }
    ensures { out.new ≡ map S.gives elements.now }
{
    for i in 0..out.len() {
        out[i] = S::apply(elements[i]);
    }
}

/// Whether the test holds at some element. One element alone takes no loop.
#[inline(always)]
fn any<T: ElementTest>(elements: &[i64]) -> bool
    ensures { result ≡ list_any T.holds elements.now }
{
    match elements {
        [element] => T::test(*element),
        _ => any_of_many::<T>(elements),
    }
}

/// The same for any number of elements. It goes over all of them, without leaving early.
#[inline(never)]
fn any_of_many<T: ElementTest>(elements: &[i64]) -> bool
    ensures { result ≡ list_any T.holds elements.now }
{
    let mut found = false;
    for element in elements {
        found |= T::test(*element);
    }
    found
}

ghost use Rattle.std.specs.Prelude.{◌≡◌, length, if◌then◌else◌};
ghost use Rattle.std.specs.List.{All};
ghost use Rattle.vcode_base.specs.Kinds.{IsFlag};
ghost use Rattle.vcode_base.specs.Meaning.{selection_of};
ghost use Rattle.vcode_base.specs.Elements.{flag, is_set};

use crate::steps::ElementStep;

/// Writes the element of `chosen` where the flag is T, and that of `other` where it is F. One element alone takes no
/// loop.
#[inline(always)]
#[tactic(auto, using(crate::proofs::Lists::one_place))]
pub(crate) fn select(flags: &[i64], chosen: &[i64], other: &[i64], out: &mut [i64])
    requires kind { All IsFlag flags.now }
    requires chosen_same { length chosen.now ≡ length flags.now }
    requires other_same { length other.now ≡ length flags.now }
    requires room { length out.old ≡ length flags.now }
    ensures { out.new ≡ selection_of flags.now chosen.now other.now }
{
    if out.len() == 1 {
        out[0] = choose(flags[0], chosen[0], other[0]);
        return;
    }
    select_many(flags, chosen, other, out);
}

/// The same for any number of elements. It is a call of its own, so that one element alone is tested for at once: a
/// loop in its place would first test for none.
#[inline(never)]
#[tactic(auto, using(crate::proofs::Lists::places))]
fn select_many(flags: &[i64], chosen: &[i64], other: &[i64], out: &mut [i64])
    requires kind { All IsFlag flags.now }
    requires chosen_same { length chosen.now ≡ length flags.now }
    requires other_same { length other.now ≡ length flags.now }
    requires room { length out.old ≡ length flags.now }
    ensures { out.new ≡ selection_of flags.now chosen.now other.now }
{
    for i in 0..out.len() {
        out[i] = choose(flags[i], chosen[i], other[i]);
    }
}

/// The first of two elements if the flag is T, else the second.
fn choose(flag: i64, on_true: i64, on_false: i64) -> i64
    requires { IsFlag flag }
    ensures { result ≡ (if is_set flag then on_true else on_false) }
{
    // The mask is all ones for T and 0 for F, so that a choice has no branch.
    let mask = -flag;
    on_false ^ ((on_true ^ on_false) & mask)
}

/// T if the number is not 0, else F.
pub struct IsSet;

impl ElementStep for IsSet {
    ghost gives = { λ x. flag (is_set x) };

    fn apply(element: i64) -> i64 {
        i64::from(element != 0)
    }
}

//! The place at which an active call goes on.

ghost use Rattle.std.specs.Prelude.{◌≡◌, ◌+◌, ◌<◌, ℕ, drop, length, MatchOption, Some, if◌then◌else◌};
ghost use Rattle.std.specs.List.{slice_get};
ghost use Rattle.vcode_reader.specs.Decode.{then_body};
ghost use Rattle.vcode_reader.specs.Trees.{Item, Body, Do, Choice, lines_of};
ghost use Rattle.job_steps.specs.Frames.{Functions, GoesOnAt, StandsOf, StopAt, Stands, begin_passed, is_passed};
ghost use Rattle.job_steps.specs.Frames.{lines_ahead, lines_from, next_line, remaining};
ghost use Rattle.job_steps.specs.States.{Active};

use std::alloc::Allocator;
use vcode_reader::laws::each_target_is_first;
use vcode_reader::{CodeItem, CodeLine, Function, Program};

/// A line of the code at which an active call goes on: an instruction or an `IF`, or before it an `ELSE` or an `ENDIF`,
/// which are passed over.
#[derive(Clone, Copy, PartialEq, Eq, Debug)]
pub struct Frame {
    /// The place of its function in the program, counted from 0.
    pub function: usize,
    /// Its own place among the lines of the function, counted from 0.
    pub place: usize,
}

impl Frame {
    /// The first line of a function.
    #[inline(always)]
    pub(crate) fn first(function: usize) -> Frame
        ensures { result ≡ record { function = function; place = 0 } }
    {
        Frame { function, place: 0 }
    }

    /// Its line, among those of its function.
    #[inline(always)]
    pub(crate) fn line<'a, A: Allocator>(self, function: &'a Function<A>) -> CodeLine<'a>
        requires { StandsOf function.now self }
        ensures line { (functions : Functions) (call : Active) → slice_get functions self.function ≡ Some function.now
            → Stands functions self call → StopAt (lines_from functions self) → result ≡ next_line call }
        ensures passed { is_passed result.item ≡ begin_passed (lines_ahead function.now self) }
    {
        function.item(self.place).unwrap()
    }

    /// The frame at which an `ELSE` or an `ENDIF` of its function goes on, which is passed over.
    #[inline(always)]
    pub(crate) fn passed<A: Allocator>(self, function: &Function<A>) -> Option<Frame>
        ensures { MatchOption result (StopAt (lines_ahead function.now self)) (GoesOnAt function.now self) }
    {
        match passed(function, self.place) {
            Some(place) => Some(Frame {
                function: self.function,
                place,
            }),
            None => None,
        }
    }

    /// The frame after an instruction, which is at its place, that goes on at what follows it.
    #[tactic(auto, using(crate::proofs::Standing::stands_next))]
    #[inline(always)]
    pub(crate) fn next<A: Allocator>(self, program: &Program<A>) -> Frame
        requires stands { (call : Active) × Stands program.now.functions self call }
        requires settled { StopAt (lines_from program.now.functions self) }
        ensures stands { (item : Item) (line ret : ℕ) (rest : Body)
            → Stands program.now.functions self (record { rest = Do item line rest; ret = ret })
            → Stands program.now.functions result (record { rest = rest; ret = ret }) }
        ensures stays { result.function ≡ self.function }
    {
        let function = self.function(program);
        Frame {
            function: self.function,
            place: behind(function, self.place),
        }
    }

    /// The frame at the part of an `IF`, which is at its place, that its flag chooses.
    #[tactic(auto, using(crate::proofs::Standing::stands_chosen))]
    #[inline(always)]
    pub(crate) fn chosen<A: Allocator>(self, program: &Program<A>, flag: bool) -> Frame
        requires stands { (call : Active) × Stands program.now.functions self call }
        requires settled { StopAt (lines_from program.now.functions self) }
        ensures stands { (line end ret : ℕ) (first second rest : Body)
            → Stands program.now.functions self (record { rest = Choice line first second end rest; ret = ret })
            → Stands program.now.functions result
            (record { rest = then_body (if flag then first else second) rest; ret = ret }) }
        ensures stays { result.function ≡ self.function }
    {
        let function = self.function(program);
        Frame {
            function: self.function,
            place: part(function, self.place, flag),
        }
    }

    /// Its function, which has a line at its place.
    #[tactic(auto, using(crate::proofs::Standing::of_function))]
    #[inline(always)]
    pub(crate) fn function<'a, A: Allocator>(self, program: &'a Program<A>) -> &'a Function<A>
        requires { (call : Active) × Stands program.now.functions self call }
        ensures function { slice_get program.now.functions self.function ≡ Some result.now }
        ensures place { self.place < length (lines_of result.now) }
    {
        &program.functions()[self.function]
    }
}

/// The place after this one.
#[inline(always)]
fn behind<A: Allocator>(function: &Function<A>, place: usize) -> usize
    requires { place < length (lines_of function.now) }
    ensures { result ≡ place + 1 }
{
    let _count = function.line_count();
    place + 1
}

/// The place of the part of an `IF` that its flag chooses.
#[tactic(auto, using(crate::proofs::Standing::parts))]
#[inline(always)]
fn part<A: Allocator>(function: &Function<A>, place: usize, flag: bool) -> usize
    requires { place < length (lines_of function.now) }
    ensures { (line end : ℕ) (first second rest : Body)
        → remaining (drop place (lines_of function.now)) ≡ Choice line first second end rest
        → StopAt (drop place (lines_of function.now))
        → remaining (drop result (lines_of function.now)) ≡ then_body (if flag then first else second) rest }
{
    each_target_is_first();
    let next = behind(function, place);
    if flag {
        next
    } else {
        function.target(place).unwrap_or(next)
    }
}

/// The place at which an `ELSE` or an `ENDIF` at this place goes on.
#[tactic(auto, using(crate::proofs::Standing::of_passed))]
#[inline(always)]
fn passed<A: Allocator>(function: &Function<A>, place: usize) -> Option<usize>
    ensures { MatchOption result
        (StopAt (drop place (lines_of function.now)))
        (λ next. (place < next) × (place < length (lines_of function.now))
        × (remaining (drop next (lines_of function.now)) ≡ remaining (drop place (lines_of function.now)))) }
{
    each_target_is_first();
    let _count = function.line_count();
    match function.item(place)?.item {
        CodeItem::Do(_) | CodeItem::If => None,
        CodeItem::Else => function.target(place),
        CodeItem::Endif => Some(place + 1),
    }
}

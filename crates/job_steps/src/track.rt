//! The place of a job in its run.

ghost use Rattle.std.specs.Prelude.{◌≡◌, ◌+◌, ◌<◌, ◌≤◌, List, [], ◌∷◌, length, max, reverse, IfOk};
ghost use Rattle.vcode_base.specs.declared.limits.TheConstants.{MOST_BUDGET};
ghost use Rattle.job_steps.specs.declared.flow.Flow.TheVariants.{Return};
ghost use Rattle.job_steps.specs.Flows.{IsFlowOf, IsWithin};
ghost use Rattle.vcode_base.specs.Kinds.{result_kinds};
ghost use Rattle.job_steps.specs.Frames.{AreActive, Functions, IsInnermost, IsOfFunction, IsSettled, SettlesIn};
ghost use Rattle.job_steps.specs.Frames.{StandAll, function_in, instruction_of, is_passed, is_passing, next_line};
ghost use Rattle.job_steps.specs.Motions.{stack_after, depth_after};
ghost use Rattle.job_steps.specs.States.{Active};
ghost use Rattle.job_steps.specs.Steps.{memory_fault, next_item};
ghost use Rattle.job_steps.specs.Tracks.{IsFirst, IsDeep, CanFollow, Advances, functions_of};

use crate::bounded_stack::BoundedStack;
use crate::calls::{Calls, Frames};
use crate::fault::memory_fault;
use crate::flow::Flow;
use crate::follow::{first_frames, follow, settle};
use crate::job::Job;
use std::alloc::{AllocError, Allocator};
use std::marker::Model;
use vcode_base::{Limits, MemoryFault, Op};
use vcode_reader::{CodeLine, Function, Program};

/// The place of a job in its run: the cells of its stack, each of which names the vector of an entry; the
/// frames of its active calls; how many instructions it executed, and the most words that it held and
/// needed at one of them.
///
/// All its memory is taken when it is made.
#[derive(Drop)]
pub struct Track<C, A: Allocator> {
    limits: Limits,
    cells: BoundedStack<C, A>,
    frames: Calls<A>,
    executed: u64,
    peak: usize,
}

impl<C, A: Allocator> Model for Track<C, A> {
    ghost use Rattle.job_steps.specs.Tracks.{TrackState, HasLimits};

    ghost Value = { TrackState C };

    ghost view = { λ t. record {
      limits = t.limits;
      cells = t.cells.entries;
      frames = t.frames.entries;
      executed = t.executed;
      peak = t.peak;
    } };

    ghost invariant = { λ t. HasLimits t.limits t.cells.room t.frames.room };
}

impl<C: Copy, A: Allocator> Track<C, A> {
    /// A job that has executed nothing, at the first line of its `MAIN`.
    ///
    /// Takes the memory for as many cells and calls as the job's limits allow; an error means that the
    /// allocator refused it. No other call takes memory.
    pub fn new(alloc: A, job: &Job<A>) -> Result<Track<C, A>, AllocError>
    where
        A: Clone,
        ensures { IfOk result (IsFirst job.now.verified job.now.limits) }
    {
        let limits = job.limits();
        let cells = BoundedStack::new(alloc.clone()?, limits.cells)?;
        let frames = first_frames(alloc, job)?;
        Ok(Track {
            limits,
            cells,
            frames,
            executed: 0,
            peak: 0,
        })
    }

    /// What the job may use.
    #[inline(always)]
    pub fn limits(&self) -> Limits
        ensures { result ≡ self.now.limits }
    {
        self.limits
    }

    /// How many entries the stack has.
    #[inline(always)]
    fn depth(&self) -> usize
        ensures depth { result ≡ length self.now.cells }
        ensures within { result ≤ self.now.limits.cells }
    {
        self.cells.len()
    }

    /// How many calls are active.
    #[inline(always)]
    pub fn calls(&self) -> usize
        ensures calls { result ≡ length self.now.frames }
        ensures within { result ≤ self.now.limits.calls }
    {
        self.frames.len()
    }

    /// How many instructions were executed.
    #[inline(always)]
    pub fn executed(&self) -> u64
        ensures { result ≡ self.now.executed }
    {
        self.executed
    }

    /// The most words that were held and needed at an instruction that was executed.
    pub fn peak(&self) -> usize
        ensures { result ≡ self.now.peak }
    {
        self.peak
    }

    /// All cells, from the bottom up.
    #[inline(always)]
    pub fn cells(&self) -> &[C]
        ensures { result.now ≡ reverse self.now.cells }
    {
        self.cells.as_slice()
    }

    /// The function of the innermost call. Some call has to be active.
    #[tactic(auto, using(crate::proofs::Following::of_functions))]
    #[inline(always)]
    pub fn function<'a>(&self, program: &'a Program<A>) -> &'a Function<A>
        requires { AreActive program.now.functions self.now.frames }
        ensures { IsInnermost program.now.functions self.now.frames result.now }
    {
        self.frames.innermost().function(program)
    }

    /// The line at which the innermost call goes on, which is of this function. In a track that is settled that is the
    /// line of the next instruction; else it is an `ELSE` or an `ENDIF` before it.
    #[tactic(auto, using(crate::proofs::Following::of_next_lines))]
    #[inline(always)]
    pub fn line<'a>(&self, function: &'a Function<A>) -> CodeLine<'a>
        requires { (functions : Functions) × IsOfFunction functions self.now.frames function.now }
        ensures line { (functions : Functions) (call : Active) (outer : List Active)
            → IsInnermost functions self.now.frames function.now → IsSettled functions self.now.frames
            → StandAll functions self.now.frames (call ∷ outer) → result ≡ next_line call }
        ensures item { (functions : Functions) (call : Active) (outer : List Active)
            → IsInnermost functions self.now.frames function.now → IsSettled functions self.now.frames
            → StandAll functions self.now.frames (call ∷ outer) → next_item call ≡ instruction_of result }
        ensures passed { is_passed result.item ≡ is_passing function.now self.now.frames }
    {
        self.frames.innermost().line(function)
    }

    /// Passes over each `ELSE` and `ENDIF` before the line of the next instruction, which is of this function: that of
    /// the innermost call. The track is settled then.
    #[inline(always)]
    pub fn settle(&mut self, function: &Function<A>)
        requires { (functions : Functions) × IsInnermost functions self.old.frames function.now }
        ensures same { self.new ≡ record self.old { frames = self.new.frames } }
        ensures settles { SettlesIn function.now self.old.frames self.new.frames }
    {
        settle(&mut self.frames, function);
    }

    /// The first limit that an instruction would pass, given that `words` words are held and needed: that of words,
    /// then of cells, then at a `CALL` that of calls. `None` if it passes none.
    #[inline(always)]
    pub fn memory_fault(&self, op: Op, words: u64) -> Option<MemoryFault>
        ensures { result ≡ memory_fault self.now.limits op words (depth_after op (length self.now.cells))
            (length self.now.frames) }
    {
        memory_fault(&self.limits, op, words, self.depth(), self.calls())
    }

    /// Executes the next instruction, which is this one without its list or name. `flow` says how the calls go on,
    /// `results` name its results from the bottom up, and `words` is the number of words that were held and needed.
    ///
    /// The track has to be settled, and need not be so afterwards. The entries that the instruction takes have to be
    /// there, no limit may be passed, and a function that it calls has to be there. At `RET` of the only active call
    /// none is active afterwards, and the entries stay.
    #[inline(always)]
    pub fn advance(&mut self, job: &Job<A>, op: Op, flow: Flow, results: &[C], words: usize)
        requires budget { self.old.executed < self.old.limits.budget }
        requires deep { IsDeep op (length self.old.cells) }
        requires given { length results.now ≡ length (result_kinds op) }
        requires cells { depth_after op (length self.old.cells) ≤ self.old.limits.cells }
        requires calls { CanFollow job.now.verified op self.old.frames self.old.limits.calls }
        requires flow { IsFlowOf op flow }
        requires settled { IsSettled (functions_of job.now.verified) self.old.frames }
        ensures advances { Advances job.now.verified op flow results.now words self.old self.new }
        ensures goes_on { (flow ≡ Return → ⊥) → 0 < length self.new.frames }
        ensures stays { IsWithin op → function_in self.new.frames ≡ function_in self.old.frames }
    {
        replace(&mut self.cells, op, results);
        follow(&mut self.frames, job, flow);
        count(&mut self.executed, &mut self.peak, words);
    }

    /// Lets go of all entries.
    pub fn clear(&mut self)
        ensures { self.new ≡ record self.old { cells = [] } }
    {
        self.cells.clear();
    }

    /// The places at which the active calls go on, that of the innermost last. In a track that is settled that is the
    /// line of the next instruction.
    pub fn frames(&self) -> Frames<'_>
        ensures { result ≡ reverse self.now.frames }
    {
        self.frames.frames()
    }
}

/// The entries that an instruction takes go, and its results come in their place.
#[inline(always)]
fn replace<C: Copy, A: Allocator>(cells: &mut BoundedStack<C, A>, op: Op, results: &[C])
    requires deep { IsDeep op (length cells.old.entries) }
    requires given { length results.now ≡ length (result_kinds op) }
    requires room { depth_after op (length cells.old.entries) ≤ cells.old.room }
    ensures { cells.new ≡ record cells.old { entries = stack_after op results.now cells.old.entries } }
{
    match op {
        Op::Move(motion, lower, upper) => cells.shift(motion, lower as usize, upper as usize),
        _ => {
            cells.lower(op.operand_kinds().len());
            cells.extend(results);
        }
    }
}

/// Counts an instruction at which `words` words were held and needed.
#[inline(always)]
fn count(executed: &mut u64, peak: &mut usize, words: usize)
    requires { executed.old < MOST_BUDGET }
    ensures executed { executed.new ≡ executed.old + 1 }
    ensures peak { peak.new ≡ max peak.old words }
{
    *executed += 1;
    *peak = (*peak).max(words);
}

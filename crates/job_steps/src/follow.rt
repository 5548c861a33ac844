//! The frames of the active calls after an instruction.

ghost use Rattle.std.specs.Prelude.{◌≡◌, ◌<◌, ℕ, List, [], ◌∷◌, length, IfOk};
ghost use Rattle.vcode_base.specs.declared.op.Op.{Op};
ghost use Rattle.job_steps.specs.declared.flow.Flow.TheVariants.{Call, Return};
ghost use Rattle.job_steps.specs.Flows.{IsFlowOf};
ghost use Rattle.job_steps.specs.Frames.{Functions, IsInnermost, IsSettled, SettlesIn, Stands, StandAll, StopAt};
ghost use Rattle.job_steps.specs.Frames.{function_in, lines_from};
ghost use Rattle.job_steps.specs.States.{Active, Callee, first_state};
ghost use Rattle.job_steps.specs.Tracks.{CanFollow, Follow, IsCallOf, first_call, functions_of};

use crate::calls::Calls;
use crate::flow::Flow;
use crate::frame::Frame;
use crate::job::Job;
use std::alloc::{AllocError, Allocator};
use vcode_reader::Function;

/// The frame of the first line of `MAIN`, with room for as many as the job may have calls.
pub(crate) fn first_frames<A: Allocator>(alloc: A, job: &Job<A>) -> Result<Calls<A>, AllocError>
    ensures room { IfOk result (λ frames. frames.room ≡ job.now.limits.calls) }
    ensures stand { IfOk result (λ frames.
        StandAll (functions_of job.now.verified) frames.entries (first_state job.now.verified).calls) }
    ensures settled { IfOk result (λ frames. IsSettled (functions_of job.now.verified) frames.entries) }
{
    Calls::new(alloc, job.limits().calls, main_frame(job))
}

/// The frame of the first line of `MAIN`.
#[tactic(auto, using(crate::proofs::Following::of_main))]
fn main_frame<A: Allocator>(job: &Job<A>) -> Frame
    ensures stands { StandAll (functions_of job.now.verified) (result ∷ []) (first_state job.now.verified).calls }
    ensures settled { IsSettled (functions_of job.now.verified) (result ∷ []) }
{
    let program = job.verified().program();
    Frame::first(program.position(b"MAIN").unwrap())
}

/// Passes over each `ELSE` and `ENDIF` before the line that is executed next, which is of this function.
#[inline(always)]
pub(crate) fn settle<A: Allocator>(frames: &mut Calls<A>, function: &Function<A>)
    requires { (functions : Functions) × IsInnermost functions frames.old.entries function.now }
    ensures room { frames.new.room ≡ frames.old.room }
    ensures settles { SettlesIn function.now frames.old.entries frames.new.entries }
{
    while let Some(frame) = frames.innermost().passed(function) {
        frames.go_on_at(frame);
    }
}

/// Follows the next instruction of the innermost call, which is at its line and has this flow.
#[tactic(auto, using(crate::proofs::Following::of_follow))]
#[inline(always)]
pub(crate) fn follow<A: Allocator>(frames: &mut Calls<A>, job: &Job<A>, flow: Flow)
    requires can { (op : Op) × CanFollow job.now.verified op frames.old.entries frames.old.room × IsFlowOf op flow }
    requires settled { IsSettled (functions_of job.now.verified) frames.old.entries }
    ensures room { frames.new.room ≡ frames.old.room }
    ensures frames { Follow job.now.verified flow frames.old.entries frames.new.entries }
    ensures goes_on { (flow ≡ Return → ⊥) → 0 < length frames.new.entries }
    ensures stays { (flow ≡ Call → ⊥) → (flow ≡ Return → ⊥)
        → function_in frames.new.entries ≡ function_in frames.old.entries }
{
    let program = job.verified().program();
    let frame = frames.innermost();
    match flow {
        Flow::Next => frames.go_on_at(frame.next(program)),
        Flow::Choose(flag) => frames.go_on_at(frame.chosen(program, flag)),
        Flow::Call => {
            let callee = called(frame, job);
            frames.go_on_at(frame.next(program));
            frames.enter(callee);
        }
        Flow::Return => frames.leave(),
    }
}

/// The first frame of the function that a `CALL` names.
#[inline(always)]
fn called<A: Allocator>(frame: Frame, job: &Job<A>) -> Frame
    requires called { (name : List ℕ) × (callee : Callee) × IsCallOf job.now.verified frame name callee }
    requires settled { StopAt (lines_from (functions_of job.now.verified) frame) }
    ensures { (name : List ℕ) (callee : Callee) → IsCallOf job.now.verified frame name callee
        → Stands (functions_of job.now.verified) result (first_call callee) }
{
    let program = job.verified().program();
    Frame::first(program.callee(frame.function, frame.place).unwrap())
}

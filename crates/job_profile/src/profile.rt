//! The profile of a job: how often its lines were executed, when it first held its peak, and the words that it held
//! over time.

ghost use Rattle.std.specs.Prelude.{◌≡◌, ◌+◌, ℕ, nat_lt, if◌then◌else◌, IfOk, MatchOption, OnErr, OnOk, slice_index};
ghost use Rattle.std.specs.Prelude.{sum};
ghost use Rattle.job_steps.specs.Runs.{executed_count_in, peak_in, progress_from};
ghost use Rattle.job_steps.specs.States.{ruled};
ghost use Rattle.job_slots.specs.Answers.{demand_in};
ghost use Rattle.job_profile.specs.Walks.{HasCome, ending_at, ending_of, first_run, goes_on, progress_of};
ghost use Rattle.job_profile.specs.Columns.{AreColumns, highest};
ghost use Rattle.job_profile.specs.Comings.{coming_in};
ghost use Rattle.job_profile.specs.Counts.{IsFirstPeak, times_of, times_until};

use crate::coming::Coming;
use crate::run::{Run, steps_move};
use crate::strip::{Column, Strip};
use crate::times::{count, grow, part, sum_of};
use crate::uses::Uses;
use job_steps::Job;
use std::alloc::{AllocError, Allocator};
use std::marker::Model;
use vcode_base::Rule;

/// What a step of a profile reports.
#[derive(Clone, Copy)]
pub struct Stepped {
    /// Whether the job goes on.
    pub goes_on: bool,
    /// The words that were held and needed at the instruction, if one was executed.
    pub words: Option<usize>,
}

/// A run of one job alone, with how often each line was executed, and with the words that it held over time.
///
/// The words are kept by columns, each of as many instructions that follow one another. There are never more than
/// [`MOST_COLUMNS`](crate::MOST_COLUMNS): where one more would be, each two become one.
///
/// In a contract it is its run, from which the counts and the columns follow.
#[derive(Drop)]
pub struct Profile<A: Allocator> {
    uses: Uses<A>,
    times: Vec<u64, A>,
    peak_after: u64,
    strip: Strip<A>,
    coming: Coming,
}

impl<A: Allocator> Model for Profile<A> {
    ghost use Rattle.job_profile.specs.Walks.{RunState, progress_of};
    ghost use Rattle.job_profile.specs.Sound.{IsProfile};

    ghost Value = { RunState };

    ghost use Rattle.std.specs.Coded.{codes};
    ghost use Rattle.job_steps.specs.Jobs.{job_code};
    ghost use Rattle.job_profile.specs.Walks.{run_code};

    ghost coded = { run_code (Prim.hlevel codes)
        (job_code (Prim.hlevel codes) (Prim.hlevel codes) (Prim.hlevel codes)) (Prim.hlevel codes) };

    ghost view = { λ p. p.uses };

    ghost invariant = { λ p. IsProfile p.uses.task (progress_of p.uses) p.times.items p.peak_after
        p.strip.columns.items p.strip.each p.strip.room p.coming };
}

/// Notes after how many instructions the peak was first reached, which is the second of these now.
#[inline(always)]
fn note_peak(after: &mut u64, before: usize, peak: usize, executed: u64)
    ensures { after.new ≡ (if nat_lt before peak then executed else after.old) }
{
    if before < peak {
        *after = executed;
    }
}

impl<A: Allocator + Clone> Profile<A> {
    /// The profile of a job that hasn't executed anything.
    ///
    /// Takes memory for the run and for all columns, and an error means that the allocator refused it.
    pub fn new(alloc: A, rule: Rule, job: Job<A>) -> Result<Profile<A>, AllocError>
        ensures { IfOk result (λ profile. profile ≡ first_run (ruled rule job)) }
    {
        let _verified = job.verified();
        let strip = Strip::new(alloc.clone()?)?;
        let times = Vec::new(alloc.clone()?);
        let uses = Uses::new(alloc, rule, job)?;
        let coming = uses.run().coming();
        Ok(Profile {
            uses,
            times,
            peak_after: 0,
            strip,
            coming,
        })
    }

    /// Stores how the job ended, with copies of its results, if its run is over. Else nothing changes.
    ///
    /// # Errors
    ///
    /// [`AllocError`] if memory for the results was refused. Nothing changes then.
    pub fn collect(&mut self) -> Result<(), AllocError>
        ensures run { HasCome self.old.task (progress_of self.old) self.new }
        ensures collected { OnOk result (ending_of self.new ≡ ending_at (progress_of self.old)) }
        ensures unchanged { OnErr result (self.new ≡ self.old) }
    {
        self.uses.collect()
    }
}

impl<A: Allocator> Profile<A> {
    /// Executes the next instruction, which is counted and goes into a column. A job whose run is over stays as it is.
    ///
    /// # Errors
    ///
    /// [`AllocError`] if memory for the counts was refused. Nothing changes then.
    #[inline(always)]
    pub fn step(&mut self) -> Result<Stepped, AllocError>
        ensures run { OnOk result
            (HasCome self.old.task (progress_from self.old.task (progress_of self.old)) self.new) }
        ensures goes_on { IfOk result (λ step. step.goes_on ≡ goes_on (progress_of self.new)) }
        ensures words { let executed = executed_count_in (progress_of self.old) in IfOk result
            (λ step. MatchOption step.words (executed_count_in (progress_of self.new) ≡ executed)
            (λ words. (executed_count_in (progress_of self.new) ≡ executed + 1)
            × (words ≡ demand_in self.old.task.rule (progress_of self.old)))) }
        ensures unchanged { OnErr result (self.new ≡ self.old) }
    {
        steps_move();
        let Coming { effect, line } = self.coming;
        let line = line as usize;
        grow(&mut self.times, line)?;
        let run = self.uses.run();
        let (held, executed, peak) = (run.held(), run.executed(), run.peak());
        let goes_on = self.uses.step();
        let run = self.uses.run();
        self.coming = run.coming();
        let (now, least) = (run.executed(), run.held());
        if now == executed {
            return Ok(Stepped {
                goes_on,
                words: None,
            });
        }
        let most = run.counted(effect, held);
        note_peak(&mut self.peak_after, peak, run.peak(), now);
        count(&mut self.times, line);
        self.strip.add(Column { most, least, line });
        Ok(Stepped {
            goes_on,
            words: Some(most),
        })
    }

    /// What the next instruction does, and its line.
    #[inline(always)]
    pub fn coming(&self) -> Coming
        ensures { result ≡ coming_in (progress_of self.now) }
    {
        self.coming
    }

    /// What the run uses of its limits.
    pub fn uses(&self) -> &Uses<A>
        ensures { result.now ≡ self.now }
    {
        &self.uses
    }

    /// The run.
    pub fn run(&self) -> &Run<A>
        ensures { result.now ≡ self.now }
    {
        self.uses.run()
    }

    /// The job, of which another run may be made.
    pub fn into_job(self) -> Job<A>
        ensures { ruled self.task.rule result ≡ self.task }
    {
        self.uses.into_job()
    }

    /// How often each line of the batch was executed, by its number. A line that isn't there was never executed.
    pub fn times(&self) -> &[u64]
        ensures each { (line : ℕ) → slice_index result.now line
            ≡ times_until self.now.task line (executed_count_in (progress_of self.now)) }
        ensures total { sum result.now ≡ executed_count_in (progress_of self.now) }
    {
        &self.times
    }

    /// How many instructions of `count` lines were executed, of which the first has this number.
    pub fn instructions(&self, first: usize, count: usize) -> u64
        ensures { result ≡ times_of self.now.task first count (executed_count_in (progress_of self.now)) }
    {
        let _executed = self.uses.executed();
        sum_of(part(&self.times, first, count))
    }

    /// After how many instructions the peak was what it is for the first time.
    pub fn peak_after(&self) -> u64
        ensures { IsFirstPeak self.now.task (peak_in (progress_of self.now)) result }
    {
        self.peak_after
    }

    /// Of how many instructions each column is, and the columns. The last is of what is left.
    pub fn columns(&self) -> (u64, &[Column])
        ensures columns { AreColumns self.now.task (executed_count_in (progress_of self.now)) result.0 result.1.now }
        ensures highest { highest result.1.now ≡ peak_in (progress_of self.now) }
    {
        (self.strip.each, self.strip.columns.as_slice())
    }
}

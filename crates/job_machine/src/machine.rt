//! Jobs over one region of words.

ghost use Rattle.std.specs.Prelude.{◌≡◌, ◌<◌, ◌≤◌, ◌↔◌, ℕ, false, length, get_or, All, IfOk, IfSome, OnOk, OnErr};
ghost use Rattle.std.specs.Prelude.{IsTrue, IfNone, Some, map, option_copied, option_map};
ghost use Rattle.std.specs.Arc.{arc_value};
ghost use Rattle.vcode_base.specs.declared.limits.TheConstants.{MOST_JOBS, MOST_PASSES, MOST_WORDS};
ghost use Rattle.job_steps.specs.declared.event.Event.TheVariants.{Admit, Begin, Finish, Recall, Collect};
ghost use Rattle.job_steps.specs.EventLaws.{IsVerified, AreKept, AdmittedHaveRoom, AdmissionsPassOnce, PassesAreFew};
ghost use Rattle.job_steps.specs.Standings.{Collected, of_job, first_queue, executed_at, peak_at};
ghost use Rattle.job_steps.specs.Standings.{used_words, granted_words};
ghost use Rattle.job_steps.specs.States.{ruled};
ghost use Rattle.job_slots.specs.Answers.{after_stepped};
ghost use Rattle.job_slots.specs.declared.answer.Compare.TheVariants.{Number};
ghost use Rattle.job_slots.specs.Slots.{status_of};
ghost use Rattle.job_machine.specs.Machines.{queue_of, machine_after, Leads, admission_in, BeginsIn, after_begun};
ghost use Rattle.job_machine.specs.Machines.{FinishesIn, after_finished, is_flying, is_over, told};
ghost use Rattle.job_machine.specs.Machines.{outcome_in, HasReturnedIn, HasNoStep, most_words, place_of};
ghost use Rattle.job_machine.specs.Machines.{HasRunIn, StepsIn, after_step, asked_in, is_running};
ghost use Rattle.job_machine.specs.Lanes.{CanAdopt, after_adoption};
ghost use Rattle.job_machine.specs.SlotOf.{IsSlotIn};

use crate::lane::{EndedJob, run_slot};
use crate::setting::{
    all_cells, most_words, new_slots, next_admission, pass_before, same_jobs, waits,
};
use job_memory::JobMemory;
use job_memory::laws::changes_join;
use job_slots::laws::{new_is_shown, others_are_shown, recalled_is_shown, shown_is_alone};
use job_slots::{Begun, Compare, Finished, Slot, Status, Stepped, Turn};
use job_steps::laws::{admissions_pass_once, admitted_have_room, leads_join, passes_are_few};
use job_steps::{Desk, Filled, Job};
use std::alloc::{AllocError, Allocator};
use std::marker::Model;
use std::sync::Arc;
use vcode_base::{Outcome, Rule, Values};

/// What an admission answers.
#[derive(Clone, Copy, PartialEq, Eq, Debug)]
pub enum Admission {
    /// The job of this number runs from now on.
    Admitted(usize),
    /// Some job waits, but none can be admitted now. Nothing changed.
    NotNow,
    /// No job waits. Nothing changed.
    NoneWaiting,
}

/// Jobs over one region of words, each of which runs as it runs alone.
///
/// Jobs are numbered from 1 in the order in which they were given. In a contract a machine is its rule, its region's
/// words and its jobs, with where each stands and how often it was passed by. What a job holds, executed and ended by
/// are functions of the jobs and of where they stand alone.
#[derive(Drop)]
pub struct Machine<A: Allocator> {
    rule: Rule,
    blocks: JobMemory<A>,
    jobs: Arc<Vec<Job<A>, A>, A>,
    pub(crate) slots: Vec<Slot<A>, A>,
    passes: Vec<u8, A>,
}

impl<A: Allocator> Model for Machine<A> {
    ghost use Rattle.std.specs.Arc.{arc_value};
    ghost use Rattle.std.specs.Coded.{codes};
    ghost use Rattle.std.specs.Prelude.{map};
    ghost use Rattle.job_steps.specs.Jobs.{job_code};
    ghost use Rattle.job_steps.specs.States.{ruled};
    ghost use Rattle.job_machine.specs.Machines.{MachineState, machine_code};
    ghost use Rattle.job_machine.specs.Sound.{IsSound, standings_of};

    ghost Value = { MachineState };

    ghost coded = { machine_code (Prim.hlevel codes)
        (job_code (Prim.hlevel codes) (Prim.hlevel codes) (Prim.hlevel codes)) (Prim.hlevel codes) };

    ghost view = { λ m. record {
      rule = m.rule;
      region = m.blocks.memory.room;
      tasks = map (ruled m.rule) (arc_value m.jobs).items;
      standings = standings_of m.slots.items;
      passes = m.passes.items;
    } };

    ghost invariant = { λ m.
        IsSound m.blocks (map (ruled m.rule) (arc_value m.jobs).items) m.slots.items m.passes.items };
}

impl<A: Allocator + Clone> Machine<A> {
    /// A machine over a region of `region` words, whose jobs all wait, and will run by this rule. There are at most 64,
    /// and the words of each fit the region.
    ///
    /// Takes the memory for the region, for the cells and calls of all jobs, for their passes, and for the numbers of
    /// their blocks; an error means that the allocator refused it. Of the calls on the machine only `list` and the
    /// collection of results take memory.
    pub fn new(
        alloc: A,
        region: usize,
        jobs: Vec<Job<A>, A>,
        rule: Rule,
    ) -> Result<Machine<A>, AllocError>
        requires region { (1 ≤ region) × (region ≤ MOST_WORDS) }
        requires jobs { length jobs.items ≤ MOST_JOBS }
        requires words { All (λ job. job.limits.words ≤ region) jobs.items }
        ensures { let tasks = map (ruled rule) jobs.items in let queue = first_queue tasks in IfOk result (λ m. m
            ≡ record {
              rule = rule;
              region = region;
              tasks = tasks;
              standings = queue.standings;
              passes = queue.passes;
            }) }
    {
        new_is_shown();
        let slots = new_slots(alloc.clone()?, jobs.as_slice())?;
        let most_blocks = all_cells(jobs.as_slice()) + 2;
        let blocks = JobMemory::new(alloc.clone()?, region, jobs.len(), most_blocks)?;
        let passes = vec![in alloc.clone()?; 0; jobs.len()]?;
        let jobs = Arc::new(alloc, jobs)?;
        Ok(Machine {
            rule,
            blocks,
            jobs,
            slots,
            passes,
        })
    }

    /// Stores the outcome of a job that has ended and gives its words back; true if it had ended.
    ///
    /// # Errors
    ///
    /// [`AllocError`] if memory for the results was refused, which comes only at a job that returned. Nothing
    /// changes then.
    #[tactic(auto, using(crate::proofs::TurnLemmas::is_lent))]
    pub fn collect(&mut self, job: usize) -> Result<bool, AllocError>
        ensures answer { IfOk result (λ yes. yes ≡ is_over (of_job job self.old.standings)) }
        ensures state { OnOk result (self.new ≡ machine_after (Collect job) self.old) }
        ensures unchanged { OnErr result (self.new ≡ self.old) }
        ensures returned { OnErr result (HasReturnedIn self.old job) }
    {
        others_are_shown();
        let Some(place) = self.place(job) else {
            return Ok(false);
        };
        let turn = Turn {
            rule: self.rule,
            number: job,
        };
        let slot = &mut self.slots[place];
        slot.collect(turn, job_at(&self.jobs, place), &mut self.blocks)
    }

    /// Gives up all steps that have begun, and then runs and collects all jobs on this thread, on a desk of at least
    /// the words of each.
    ///
    /// `Err` if the collection of a job that returned was refused memory: what was done until then stands, no step
    /// has begun, and the call may be made again.
    pub fn run_out(&mut self, desk: Desk<A>) -> (Result<(), AllocError>, Desk<A>)
        requires { All (λ task. task.limits.words ≤ desk) self.old.tasks }
        ensures ok { OnOk result.0 (All (λ standing. standing ≡ Collected) self.new.standings) }
        ensures refused { OnErr result.0 ((job : ℕ) × HasReturnedIn self.new job) }
        ensures no_step { HasNoStep self.new }
        ensures events { Leads self.old self.new }
        ensures desk { result.1 ≡ desk }
    {
        leads_join();
        self.recall_all();
        let mut desk = desk;
        let ran = self.run_all(&mut desk);
        (ran, desk)
    }
}

impl<A: Allocator> Machine<A> {
    /// Admits the first job that waits and whose words fit beside those that are granted, unless a job that waits
    /// before it was passed by [`MOST_PASSES`](vcode_base::limits::MOST_PASSES) times. Each job that waits before it is
    /// passed by once more.
    ///
    /// `NotNow` exactly if some job waits, and none can be admitted so.
    pub fn admit(&mut self) -> Admission
        ensures answer { result ≡ admission_in self.old }
        ensures state { self.new ≡ machine_after Admit self.old }
    {
        others_are_shown();
        admission_laws();
        let next = next_admission(
            &self.blocks,
            self.jobs.as_slice(),
            self.slots.as_slice(),
            self.passes.as_slice(),
        );
        let Admission::Admitted(job) = next else {
            return next;
        };
        let place = job - 1;
        pass_before(place, self.slots.as_slice(), self.passes.as_mut_slice());
        let turn = Turn {
            rule: self.rule,
            number: job,
        };
        let slot = &mut self.slots[place];
        let _granted = slot.admit(turn, job_at(&self.jobs, place), &mut self.blocks);
        next
    }

    /// Begins the next step of a job on a desk, which goes with the ticket; else the desk comes back.
    ///
    /// A job whose budget is spent, whose operands do not fit one another, or whose next instruction would pass a
    /// limit, ends here.
    #[tactic(auto, using(crate::proofs::TurnLemmas::is_lent))]
    pub fn begin(&mut self, job: usize, desk: Desk<A>) -> Begun<A>
        ensures answer { BeginsIn job desk (of_job job self.old.tasks) (of_job job self.old.standings) result }
        ensures state { self.new ≡ after_begun result self.old (machine_after (Begin job) self.old) }
    {
        others_are_shown();
        let Some(place) = self.place(job) else {
            return Begun::NotReady(desk);
        };
        let turn = Turn {
            rule: self.rule,
            number: job,
        };
        let slot = &mut self.slots[place];
        slot.begin(turn, job_at(&self.jobs, place), &mut self.blocks, desk)
    }

    /// Commits a step that was computed, if it is the one of its job that has begun, with the same instruction and
    /// operands. The desk comes back.
    pub fn finish(&mut self, filled: Filled<A>) -> (Finished, Desk<A>)
        ensures answer { FinishesIn filled (of_job filled.job self.old.tasks)
            (of_job filled.job self.old.standings) result.0 }
        ensures desk { result.1 ≡ filled.words }
        ensures state { self.new ≡ after_finished result.0 self.old (machine_after (Finish filled.job) self.old) }
    {
        self.finish_of(filled, Compare::Operands)
    }

    /// Commits a step that was computed, as `finish` does, but compares no operands: the step is known to ask what its
    /// job asks at its number. `Stale` exactly if no step of this number is in flight.
    pub fn finish_own(&mut self, filled: Filled<A>) -> (Finished, Desk<A>)
        requires { asked_in self.old.tasks filled.job filled.step ≡ Some filled.question }
        ensures answer { FinishesIn filled (of_job filled.job self.old.tasks)
            (of_job filled.job self.old.standings) result.0 }
        ensures desk { result.1 ≡ filled.words }
        ensures state { self.new ≡ after_finished result.0 self.old (machine_after (Finish filled.job) self.old) }
    {
        self.finish_of(filled, Compare::Number)
    }

    /// The same, by what is compared.
    #[tactic(auto, using(crate::proofs::TurnLemmas::is_lent, crate::proofs::TurnLemmas::numbers_left))]
    fn finish_of(&mut self, filled: Filled<A>, compare: Compare) -> (Finished, Desk<A>)
        requires { compare ≡ Number → asked_in self.old.tasks filled.job filled.step ≡ Some filled.question }
        ensures answer { FinishesIn filled (of_job filled.job self.old.tasks)
            (of_job filled.job self.old.standings) result.0 }
        ensures desk { result.1 ≡ filled.words }
        ensures state { self.new ≡ after_finished result.0 self.old (machine_after (Finish filled.job) self.old) }
    {
        others_are_shown();
        shown_is_alone();
        let _used = self.blocks.used();
        let job = filled.job();
        let Some(place) = self.place(job) else {
            return (Finished::Stale, filled.into_desk());
        };
        let turn = Turn {
            rule: self.rule,
            number: job,
        };
        let slot = &mut self.slots[place];
        slot.finish(
            turn,
            job_at(&self.jobs, place),
            &mut self.blocks,
            filled,
            compare,
        )
    }

    /// Carries out the next instruction of a job in one go, with the desk's room for its results. Takes no memory.
    ///
    /// At `Done` and `Ended` the job is as a begin and then the finish of that step leave it. `NotReady` exactly if
    /// there is no such job, or it waits, a step of it has begun, or it is over. `SmallDesk` exactly if it is live and
    /// the desk has fewer words than the job. Nothing changes then.
    #[tactic(auto, using(crate::proofs::TurnLemmas::is_lent, crate::proofs::TurnLemmas::numbers_left))]
    #[inline(always)]
    pub fn step(&mut self, job: usize, desk: &mut Desk<A>) -> Stepped
        ensures answer { StepsIn job desk.old (of_job job self.old.tasks) (of_job job self.old.standings) result }
        ensures state { self.new ≡ after_stepped result self.old (after_step job self.old) }
        ensures desk { desk.new ≡ desk.old }
    {
        others_are_shown();
        shown_is_alone();
        let _used = self.blocks.used();
        let Some(place) = self.place(job) else {
            return Stepped::NotReady;
        };
        let turn = Turn {
            rule: self.rule,
            number: job,
        };
        let slot = &mut self.slots[place];
        slot.step(turn, job_at(&self.jobs, place), &mut self.blocks, desk)
    }

    /// Carries out the instructions of a job, if it is live, until it is over, on a desk of at least its words.
    #[tactic(auto, using(crate::proofs::TurnLemmas::is_lent))]
    pub(crate) fn take_steps(&mut self, job: usize, desk: &mut Desk<A>)
        requires { All (λ task. task.limits.words ≤ desk.old) self.old.tasks }
        ensures ran { HasRunIn job self.old self.new }
        ensures over { is_running (of_job job self.new.standings) ≡ false }
        ensures desk { desk.new ≡ desk.old }
    {
        others_are_shown();
        shown_is_alone();
        let Some(place) = self.place(job) else {
            return;
        };
        let turn = Turn {
            rule: self.rule,
            number: job,
        };
        let slot = &mut self.slots[place];
        run_slot(
            slot,
            turn,
            job_at(&self.jobs, place),
            &mut self.blocks,
            desk,
        )
    }

    /// Takes over the end of a job that ran by itself; true if the machine has that job at its number, with its rule,
    /// and it waits. It is collected then. Else nothing changes.
    #[tactic(auto, using(crate::proofs::LaneLemmas::slot_within))]
    pub fn adopt(&mut self, ended: EndedJob<A>) -> bool
        ensures answer { IsTrue result ↔ CanAdopt self.old ended }
        ensures state { self.new ≡ after_adoption result ended.job self.old }
    {
        others_are_shown();
        changes_join();
        let Some(place) = self.place_for(&ended) else {
            drop(ended);
            return false;
        };
        self.slots[place] = ended.into_slot();
        true
    }

    /// The place of the job of an end, counted from 0, if the machine has that job, with its rule, and it waits.
    #[tactic(auto, using(crate::proofs::LaneLemmas::waits_as, crate::proofs::TurnLemmas::is_lent))]
    fn place_for(&self, ended: &EndedJob<A>) -> Option<usize>
        ensures place { IfSome result (λ place. place_of (length self.now.tasks) ended.now.job ≡ Some place) }
        ensures can { IfSome result (λ _. CanAdopt self.now ended.now) }
        ensures none { IfNone result (CanAdopt self.now ended.now → ⊥) }
    {
        let _jobs = self.jobs();
        let Some(place) = self.place(ended.number()) else {
            return None;
        };
        if !waits(&self.slots[place]) {
            return None;
        }
        if !ended.is_of(self.rule, job_at(&self.jobs, place)) {
            return None;
        }
        Some(place)
    }

    /// Gives up the step of a job that has begun; true if there was one. The job is as before the step's begin.
    pub fn recall(&mut self, job: usize) -> bool
        ensures answer { result ≡ is_flying (of_job job self.old.standings) }
        ensures state { self.new ≡ machine_after (Recall job) self.old }
    {
        others_are_shown();
        changes_join();
        recalled_is_shown();
        let Some(place) = self.place(job) else {
            return false;
        };
        self.slots[place].recall()
    }

    /// The rule by which the jobs run.
    pub fn rule(&self) -> Rule
        ensures { result ≡ self.now.rule }
    {
        self.rule
    }

    /// The status of a job, or `None` for no such job.
    pub fn status(&self, job: usize) -> Option<Status>
        ensures { result ≡ option_map status_of (of_job job self.now.standings) }
    {
        let slot = self.slot(job)?;
        Some(slot.status())
    }

    /// How a job ended, if it is collected.
    pub fn outcome(&self, job: usize) -> Option<&Outcome<Values<A>>>
        ensures { option_copied result ≡ outcome_in job self.now }
    {
        let slot = self.slot(job)?;
        slot.outcome()
    }

    /// How many instructions a job executed, or `None` for no such job.
    pub fn executed(&self, job: usize) -> Option<u64>
        ensures { result ≡ told executed_at job self.now }
    {
        let slot = self.slot(job)?;
        Some(slot.executed())
    }

    /// The most words that a job held and needed at an instruction that it executed, or `None` for no such job.
    pub fn peak(&self, job: usize) -> Option<usize>
        ensures { result ≡ told peak_at job self.now }
    {
        let slot = self.slot(job)?;
        Some(slot.peak())
    }

    /// How often a job was passed by, or `None` for no such job: how many jobs after it were admitted while it waited.
    /// Once it is admitted this stays.
    #[tactic(auto, using(crate::proofs::TurnLemmas::passed_in, crate::proofs::TurnLemmas::passed_missing))]
    pub fn passed(&self, job: usize) -> Option<u8>
        ensures value { result ≡ of_job job self.now.passes }
        ensures few { IfSome result (λ count. count ≤ MOST_PASSES) }
    {
        let passes = self.passes.as_slice();
        let place = self.place(job)?;
        Some(passes[place])
    }

    /// The words of all vectors that the jobs hold, which are within those that are granted, as these are within the
    /// region.
    #[tactic(auto, using(crate::proofs::TurnLemmas::used_is, crate::proofs::SoundLemmas::granted_is))]
    pub fn used(&self) -> usize
        ensures used { result ≡ used_words self.now.tasks self.now.standings }
        ensures within { used_words self.now.tasks self.now.standings
            ≤ granted_words self.now.tasks self.now.standings }
        ensures granted { granted_words self.now.tasks self.now.standings ≤ self.now.region }
    {
        shown_is_alone();
        let _granted = self.blocks.granted();
        self.blocks.used()
    }

    /// How many jobs there are. Each is verified, fits the region, and is where its run alone leads.
    pub fn jobs(&self) -> usize
        ensures count { result ≡ length self.now.tasks }
        ensures few { length self.now.tasks ≤ MOST_JOBS }
        ensures verified { All IsVerified self.now.tasks }
        ensures fitting { All (λ task. task.limits.words ≤ self.now.region) self.now.tasks }
        ensures kept { AreKept self.now.region self.now.tasks (queue_of self.now) }
    {
        shown_is_alone();
        let _used = self.blocks.used();
        let _granted = self.blocks.granted();
        self.slots.len()
    }

    /// The jobs, which the machine shares with the caller.
    ///
    /// # Errors
    ///
    /// [`AllocError`] if they already have as many owners as can be counted.
    pub fn list(&self) -> Result<Arc<Vec<Job<A>, A>, A>, AllocError>
    where
        A: Clone,
        ensures { IfOk result (λ list. map (ruled self.now.rule) (arc_value list).items ≡ self.now.tasks) }
    {
        Arc::try_clone(&self.jobs)
    }

    /// The words of the job that has the most, and 0 if there is no job: a desk of this number serves each job.
    #[tactic(auto, using(crate::proofs::Rules::most_ruled))]
    pub fn most_words(&self) -> usize
        ensures value { result ≡ most_words self.now.tasks }
        ensures each { All (λ task. task.limits.words ≤ result) self.now.tasks }
        ensures within { result ≤ MOST_WORDS }
    {
        most_words(self.in_order())
    }

    /// The jobs, in order.
    pub(crate) fn in_order(&self) -> &[Job<A>]
        ensures { map (ruled self.now.rule) result.now ≡ self.now.tasks }
    {
        self.jobs.as_slice()
    }

    /// Whether these are the machine's jobs, in order.
    #[tactic(auto, using(crate::proofs::Rules::same_without))]
    pub fn holds(&self, jobs: &[Job<A>]) -> bool
        ensures { IsTrue result ↔ (self.now.tasks ≡ map (ruled self.now.rule) jobs.now) }
    {
        same_jobs(self.jobs.as_slice(), jobs)
    }

    /// The slot of a job.
    fn slot(&self, job: usize) -> Option<&Slot<A>>
        ensures { IsSlotIn job self.now (option_copied result) }
    {
        shown_is_alone();
        let _used = self.blocks.used();
        let place = self.place(job)?;
        Some(&self.slots[place])
    }

    /// The place of a job, counted from 0.
    pub(crate) fn place(&self, job: usize) -> Option<usize>
        ensures { result ≡ place_of (length self.now.tasks) job }
    {
        if job == 0 || job > self.slots.len() {
            return None;
        }
        Some(job - 1)
    }
}

/// The job at a place.
fn job_at<A: Allocator>(jobs: &Arc<Vec<Job<A>, A>, A>, place: usize) -> &Job<A>
    requires { place < length (arc_value jobs.now).items }
    ensures { result.now ≡ get_or (arc_value jobs.now).items place result.now }
{
    &jobs.as_slice()[place]
}

/// The laws of who is admitted, and of who is passed by.
fn admission_laws()
    ensures room { AdmittedHaveRoom }
    ensures passed { AdmissionsPassOnce }
    ensures few { PassesAreFew }
{
    admitted_have_room();
    admissions_pass_once();
    passes_are_few();
}

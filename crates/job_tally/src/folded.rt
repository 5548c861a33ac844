//! What a job executed by chains of functions, and by lines of the source in them.

use crate::chains::{Chains, innermost};
use crate::source_counts::{Row, SourceCounts};
use crate::tally::Stretch;
use code_places::Sources;
use job_history::Next;
use job_looks::elements_of;
use job_profile::{Effect, Run};
use std::alloc::{AllocError, Global};
use vcode_base::limits::MOST_BUDGET;

/// Counts what the innermost call of a run has executed itself.
#[inline(always)]
fn end_stretch(chains: &mut Chains, stretch: &mut Stretch, run: &Run<Global>) {
    let own = stretch.end(stretch.all(run));
    chains.count(own);
}

/// Counts an instruction with another effect on the calls, or with these elements, which a run has executed.
#[inline(always)]
fn count(
    chains: &mut Chains,
    stretch: &mut Stretch,
    effect: Effect,
    run: &Run<Global>,
) -> Result<(), AllocError> {
    match effect {
        Effect::Calls => {
            end_stretch(chains, stretch, run);
            chains.call(innermost(run))
        }
        Effect::Returns => {
            end_stretch(chains, stretch, run);
            chains.leave();
            Ok(())
        }
        Effect::Makes | Effect::MakesTwo | Effect::Chooses | Effect::Moves(_) | Effect::Nothing =>
            Ok(()),
    }
}

/// Executes the next instruction, which takes operands or makes results, and counts their elements; true if it was
/// executed.
fn compute(stretch: &mut Stretch, run: &mut Run<Global>) -> bool {
    let Some(next) = Next::of(run) else {
        return false;
    };
    let (read, executed) = (
        elements_of(run, next.op.operand_kinds().len()),
        run.executed(),
    );
    run.step();
    if run.executed() == executed {
        return false;
    }
    stretch.add(read.saturating_add(elements_of(run, next.op.result_kinds().len())));
    true
}

/// Executes the next instruction, which does this, and counts it; true if it was executed.
fn step(
    chains: &mut Chains,
    stretch: &mut Stretch,
    effect: Effect,
    run: &mut Run<Global>,
) -> Result<bool, AllocError> {
    if let Effect::Makes | Effect::MakesTwo | Effect::Chooses = effect {
        return Ok(compute(stretch, run));
    }
    let executed = run.executed();
    run.step();
    if run.executed() == executed {
        return Ok(false);
    }
    count(chains, stretch, effect, run)?;
    Ok(true)
}

/// Runs a job to its end, and counts what it executes by chains.
fn run_out(chains: &mut Chains, run: &mut Run<Global>) -> Result<(), AllocError> {
    let mut stretch = Stretch::NONE;
    for _ in 0..=MOST_BUDGET {
        let effect = run.coming().effect;
        if !step(chains, &mut stretch, effect, run)? {
            break;
        }
    }
    end_stretch(chains, &mut stretch, run);
    Ok(())
}

/// Counts an instruction of a line of the code by its line of the source, if it is of one. It is in the chain at a
/// place.
fn count_source(
    counts: &mut SourceCounts,
    sources: &Sources,
    chain: usize,
    line: u64,
) -> Result<(), AllocError> {
    let row = match sources.place(line) {
        Some(line) => Some(Row { chain, line }),
        None => None,
    };
    counts.count(row)
}

/// Runs a job to its end, and counts what it executes by chains and by lines of the source.
fn run_out_by_source(
    chains: &mut Chains,
    counts: &mut SourceCounts,
    sources: &Sources,
    run: &mut Run<Global>,
) -> Result<(), AllocError> {
    let mut stretch = Stretch::NONE;
    for _ in 0..=MOST_BUDGET {
        let (coming, chain) = (run.coming(), chains.place());
        if !step(chains, &mut stretch, coming.effect, run)? {
            break;
        }
        count_source(counts, sources, chain, coming.line)?;
    }
    end_stretch(chains, &mut stretch, run);
    counts.end()
}

/// The chains of a run that has executed nothing, which goes to its end, and how many instructions were executed in
/// them by lines of the source, in the order of chains and lines.
///
/// # Errors
///
/// [`AllocError`] if memory was refused.
pub fn counted_by_source(
    alloc: Global,
    sources: &Sources,
    run: &mut Run<Global>,
) -> Result<(Chains, Vec<(Row, u64)>), AllocError> {
    let mut chains = Chains::new(alloc, run)?;
    let mut counts = SourceCounts::new(alloc);
    run_out_by_source(&mut chains, &mut counts, sources, run)?;
    let rows = counts.rows(alloc)?;
    Ok((chains, rows))
}

/// The chains of a run that has executed nothing, which goes to its end.
///
/// # Errors
///
/// [`AllocError`] if memory was refused.
pub fn chains_of(alloc: Global, run: &mut Run<Global>) -> Result<Chains, AllocError> {
    let mut chains = Chains::new(alloc, run)?;
    run_out(&mut chains, run)?;
    Ok(chains)
}

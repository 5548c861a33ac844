//! What a job executed by the functions that run inside one another, as flame graph tools take it.

use crate::output::print_text;
use code_places::Sources;
use job_looks::Batch;
use job_profile::Run;
use job_steps::Job;
use job_tally::{Chains, Count, Row, chains_of, counted_by_source};
use std::alloc::Global;
use std::io;
use why_command::Unit;
use why_texts::{Stack, chain_text, names_of, source_line_text};

/// The number of a count in this unit.
fn number_of(count: Count, unit: Unit) -> u64 {
    match unit {
        Unit::Instructions | Unit::Source => count.instructions,
        Unit::Elements => count.elements,
    }
}

/// Prints a line for each chain of functions that executed something itself: their names, and how much.
fn print_chains(rt: &HostRuntime, chains: &Chains, names: &[String], unit: Unit) -> io::Result<()> {
    let mut stack = Stack::new(rt.alloc());
    for (place, chain) in chains.chains().iter().enumerate() {
        stack.take(chains, place)?;
        let number = number_of(chain.count, unit);
        print_text(rt, chain_text(&stack, names, number))?;
    }
    Ok(())
}

/// Prints a line for each line of the source that was executed in the last chain of a stack, which is at a place, and
/// answers how many instructions that are. They are the first of the rows.
fn print_rows(
    rt: &HostRuntime,
    sources: &Sources,
    stack: &Stack,
    names: &[String],
    chain: usize,
    rows: &[(Row, u64)],
) -> io::Result<u64> {
    let mut all: u64 = 0;
    for (row, count) in rows {
        if row.chain != chain {
            break;
        }
        print_text(
            rt,
            source_line_text(sources, stack, names, row.line, *count),
        )?;
        all = all.saturating_add(*count);
    }
    Ok(all)
}

/// Prints a line for each line of the source that a chain executed, and one for what it executed besides.
fn print_chain_by_source(
    rt: &HostRuntime,
    sources: &Sources,
    stack: &Stack,
    names: &[String],
    rows: &[(Row, u64)],
    place: usize,
    own: u64,
) -> io::Result<()> {
    let first = rows.partition_point(|row| row.0.chain < place);
    let rest = rows.get(first..).unwrap_or(&[]);
    let counted = print_rows(rt, sources, stack, names, place, rest)?;
    print_text(rt, chain_text(stack, names, own.saturating_sub(counted)))
}

/// Prints the same for each chain.
fn print_chains_by_source(
    rt: &HostRuntime,
    chains: &Chains,
    names: &[String],
    sources: &Sources,
    rows: &[(Row, u64)],
) -> io::Result<()> {
    let mut stack = Stack::new(rt.alloc());
    for (place, chain) in chains.chains().iter().enumerate() {
        stack.take(chains, place)?;
        let own = chain.count.instructions;
        print_chain_by_source(rt, sources, &stack, names, rows, place, own)?;
    }
    Ok(())
}

/// Prints the lines of a job of these chains by lines of the source, of these counts.
fn print_counts(
    rt: &HostRuntime,
    job: &Job<Global>,
    chains: &Chains,
    sources: &Sources,
    rows: &[(Row, u64)],
) -> io::Result<()> {
    let names = names_of(rt.alloc(), job)?;
    print_chains_by_source(rt, chains, &names, sources, rows)
}

/// Prints the lines of a run that has executed nothing, which goes to its end, by these lines of the source.
fn print_counted(rt: &HostRuntime, sources: &Sources, run: &mut Run<Global>) -> io::Result<()> {
    let (chains, rows) = counted_by_source(rt.alloc(), sources, run)?;
    print_counts(rt, run.job(), &chains, sources, &rows)
}

/// Prints the lines of a run that has executed nothing, which goes to its end, by lines of the source.
fn print_run_by_source(
    rt: &HostRuntime,
    batch: Batch<'_>,
    run: &mut Run<Global>,
) -> io::Result<()> {
    let sources = Sources::of(rt.alloc(), batch.lines, run.job().verified().program())?;
    let printed = print_counted(rt, &sources, run);
    drop(sources);
    printed
}

/// Prints the lines of a job of these chains.
fn print_named(rt: &HostRuntime, job: &Job<Global>, chains: &Chains, unit: Unit) -> io::Result<()> {
    let names = names_of(rt.alloc(), job)?;
    print_chains(rt, chains, &names, unit)
}

/// Prints the lines of a run that has executed nothing, which goes to its end.
fn print_run(rt: &HostRuntime, run: &mut Run<Global>, unit: Unit) -> io::Result<()> {
    let chains = chains_of(rt.alloc(), run)?;
    print_named(rt, run.job(), &chains, unit)
}

/// Prints the lines of a run that has executed nothing, which goes to its end, in this unit.
fn print_unit(
    rt: &HostRuntime,
    batch: Batch<'_>,
    run: &mut Run<Global>,
    unit: Unit,
) -> io::Result<()> {
    match unit {
        Unit::Source => print_run_by_source(rt, batch, run),
        Unit::Instructions | Unit::Elements => print_run(rt, run, unit),
    }
}

/// Runs a job, and prints a line for each chain of functions that executed something itself: their names, and how many
/// instructions or elements; or a line for each line of the source that was executed there.
pub fn print_folded(
    rt: &HostRuntime,
    batch: Batch<'_>,
    job: Job<Global>,
    unit: Unit,
) -> io::Result<()> {
    let mut run = Run::new(rt.alloc(), batch.rule, job)?;
    let printed = print_unit(rt, batch, &mut run, unit);
    drop(run);
    printed
}

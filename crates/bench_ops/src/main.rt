//! Times the vector and segment instructions, and the memory of a region under loads that fragment it.
//!
//! With the argument `time` each instruction has a line with picoseconds an element. Vectors have 1, 100, 1,000 and
//! 30,000 words, and for the segment instructions they are in segments of about ten words and in one segment. Each of
//! several rounds prints all its lines, and has flags and orders of its own, which no processor has learned.
//!
//! With the arguments `memory` and `time` blocks of mixed lengths are released and made, and ranges of words are taken
//! and given, in the largest region. The states at the ends of the loads and nanoseconds are printed.
//!
//! With no argument each instruction is filled over a hundred words, and the first and the last word of its result are
//! printed; then the loads are short, and only the states at their ends are printed. With the argument `memory` only
//! that is printed.
#![tactic(auto)]

mod bench;
mod blocks;
mod draw;
mod loads;
mod rows;
mod spans;
mod takes;

use bench::show_rows;
use loads::{Load, Random, Segments, Shown, Vectors};
use rows::{ELEMENTWISE, SEGMENTED};
use std::{env, io};

/// How often each instruction is timed.
const ROUNDS: u64 = 41;

/// The lines of the elementwise instructions.
fn show_elementwise(
    rt: &HostRuntime,
    load: Load,
    vectors: &mut Vectors,
    random: &mut Random,
) -> io::Result<()> {
    println!(rt; "of {}", load.words)?;
    vectors.fill(rt.alloc(), random, load.words)?;
    show_rows(rt, load, vectors, &ELEMENTWISE)
}

/// The lines of the segment instructions.
fn show_segmented(
    rt: &HostRuntime,
    load: Load,
    segments: Segments,
    vectors: &mut Vectors,
    random: &mut Random,
) -> io::Result<()> {
    println!(rt; "of {}, {}", load.words, segments.name())?;
    vectors.fill_segments(rt.alloc(), random, segments, load.words)?;
    show_rows(rt, load, vectors, &SEGMENTED)
}

/// The lines of all instructions.
fn show_instructions(
    rt: &HostRuntime,
    load: Load,
    vectors: &mut Vectors,
    random: &mut Random,
) -> io::Result<()> {
    show_elementwise(rt, load, vectors, random)?;
    show_segmented(rt, load, Segments::AboutTen, vectors, random)?;
    show_segmented(rt, load, Segments::One, vectors, random)
}

/// The lines of a round.
fn show_round(rt: &HostRuntime, vectors: &mut Vectors, random: &mut Random) -> io::Result<()> {
    for words in [1, 100, 1_000, 30_000] {
        let load = Load {
            shown: Shown::Time,
            words,
        };
        show_instructions(rt, load, vectors, random)?;
    }
    Ok(())
}

/// The lines of the instructions: of all rounds, or their ends.
fn show_all(
    rt: &HostRuntime,
    is_timed: bool,
    vectors: &mut Vectors,
    random: &mut Random,
) -> io::Result<()> {
    if !is_timed {
        let load = Load {
            shown: Shown::Ends,
            words: 100,
        };
        return show_instructions(rt, load, vectors, random);
    }
    for _ in 0..ROUNDS {
        show_round(rt, vectors, random)?;
    }
    Ok(())
}

/// Whether the program has this argument.
fn has_argument(rt: &HostRuntime, argument: &str) -> io::Result<bool> {
    Ok(env::args(rt)?.any(|word| word.as_str() == argument))
}

fn main(rt: HostRuntime) -> io::Result<()> {
    let is_timed = has_argument(&rt, "time")?;
    let is_memory = has_argument(&rt, "memory")?;
    if !is_memory {
        show_all(
            &rt,
            is_timed,
            &mut Vectors::new(rt.alloc()),
            &mut Random::new(1),
        )?;
    }
    if is_timed && !is_memory {
        return Ok(());
    }
    blocks::run(&rt, is_timed)?;
    takes::run(&rt, is_timed)
}

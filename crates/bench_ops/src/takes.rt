//! Loads of takes and gives in the largest region: each number has a range of its words, or none.

ghost use Rattle.std.specs.Prelude.{◌≤◌, ◌<◌};

use crate::draw::{SEED, next, pick};
use crate::spans::Spans;
use holes::Holes;
use std::alloc::{AllocError, Global};
use std::io;
use std::time::Instant;
use string_builder::StringBuilder;
use vcode_base::limits::MOST_WORDS;

/// The turns of a load that isn't timed.
const SHORT_TURNS: usize = 2_000;

/// The turns of a load that is timed.
const TIMED_TURNS: usize = 400_000;

/// How often all words are made free, which is timed.
const RESETS: usize = 1_000;

/// In which order numbers have their turns.
#[derive(Clone, Copy)]
enum Order {
    /// From the first to the last, again and again.
    Turns,
    /// From the first to the last, each taking words, and back, each giving them.
    Stack,
    /// In no order.
    Random,
}

impl Order {
    fn name(self) -> &'static str {
        match self {
            Order::Turns => "turns",
            Order::Stack => "stack",
            Order::Random => "random",
        }
    }
}

/// How many numbers there are, the least and the greatest length of a range, and the order of turns.
#[derive(Clone, Copy)]
struct Load {
    numbers: usize,
    least: usize,
    greatest: usize,
    order: Order,
}

/// A load by its parts.
fn load_of(numbers: usize, least: usize, greatest: usize, order: Order) -> Load {
    Load {
        numbers,
        least,
        greatest,
        order,
    }
}

/// The loads, from those of few words to those that nearly fill the region.
fn loads() -> [Load; 11] {
    [
        load_of(2, 1, 1, Order::Turns),
        load_of(16, 1, 8, Order::Stack),
        load_of(4_096, 1, 8, Order::Stack),
        load_of(16, 1, 8, Order::Random),
        load_of(256, 1, 8, Order::Random),
        load_of(4_096, 1, 8, Order::Random),
        load_of(64, 1, 500, Order::Random),
        load_of(2_048, 1, 500, Order::Random),
        load_of(16, 10_000, 100_000, Order::Random),
        load_of(31_000, 1, 64, Order::Random),
        load_of(4_000, 1, 500, Order::Random),
    ]
}

/// A number, and how many words it takes after it gave those that it had.
#[derive(Clone, Copy)]
struct Turn {
    number: usize,
    len: usize,
}

/// The turn at an index, with a length that a seed gives.
fn turn_at(load: Load, index: usize, seed: u64) -> Turn {
    let numbers = load.numbers.max(1);
    let lengths = load.greatest.saturating_sub(load.least).saturating_add(1);
    let len = load.least.saturating_add(pick(seed, lengths));
    match load.order {
        Order::Turns => Turn {
            number: index % numbers,
            len,
        },
        Order::Stack if index / numbers % 2 == 1 => Turn {
            number: numbers - 1 - index % numbers,
            len: 0,
        },
        Order::Stack => Turn {
            number: index % numbers,
            len,
        },
        Order::Random => Turn {
            number: pick(next(seed), numbers),
            len,
        },
    }
}

/// Runs `turns` turns of a load.
fn churn(load: Load, spans: &mut Spans, turns: usize) {
    let mut seed = SEED;
    for index in 0..turns {
        seed = next(next(seed));
        let turn = turn_at(load, index, seed);
        spans.give(turn.number);
        spans.take(turn.number, turn.len);
    }
}

/// A load and the state after it, as a line shows them.
fn text_of(rt: &HostRuntime, load: Load, holes: &Holes<Global>) -> Result<String, AllocError> {
    let mut text = StringBuilder::new(rt.alloc());
    for number in [load.numbers, load.least, load.greatest] {
        text.push_number(number as u64);
        text.push(' ');
    }
    text.push_str(load.order.name());
    text.push_str(": ");
    text.push_number(holes.free() as u64);
    text.push_str(" words free in ");
    text.push_number(holes.count() as u64);
    text.push_str(" holes, ");
    text.push_number(holes.widest() as u64);
    text.push_str(" in the widest");
    text.finish()
}

/// Prints a load and the state after it.
fn show(rt: &HostRuntime, load: Load, holes: &Holes<Global>) -> io::Result<()> {
    let text = text_of(rt, load, holes)?;
    println!(rt; "{text}")
}

/// Runs turns of a load, and answers how many nanoseconds they took.
fn time_turns(rt: &HostRuntime, load: Load, spans: &mut Spans, turns: usize) -> io::Result<u128> {
    let start = Instant::now(rt)?;
    churn(load, spans, turns);
    Ok(start.elapsed(rt)?.as_nanos())
}

/// Runs some turns first and then those that are timed, and prints the state after them.
fn run_turns(
    rt: &HostRuntime,
    load: Load,
    spans: &mut Spans,
    first: usize,
    turns: usize,
) -> io::Result<u128> {
    churn(load, spans, first);
    let took = time_turns(rt, load, spans, turns)?;
    show(rt, load, spans.holes())?;
    Ok(took)
}

/// Runs a load in a region of which no number has words yet.
fn run_load(rt: &HostRuntime, load: Load, first: usize, turns: usize) -> io::Result<u128> {
    let mut spans = Spans::new(rt.alloc(), MOST_WORDS, load.numbers)?;
    let took = run_turns(rt, load, &mut spans, first, turns);
    drop(spans);
    took
}

/// Makes all words of the region free, again and again, and answers how long that took.
fn time_resets(rt: &HostRuntime, holes: &mut Holes<Global>) -> io::Result<u128> {
    let start = Instant::now(rt)?;
    for _ in 0..RESETS {
        holes.reset(0);
    }
    Ok(start.elapsed(rt)?.as_nanos())
}

/// Prints how long resets take.
fn show_resets(rt: &HostRuntime) -> io::Result<()> {
    let mut holes = Holes::new(rt.alloc(), MOST_WORDS, 1)?;
    let took = time_resets(rt, &mut holes)?;
    println!(rt; "{took} nanoseconds for {RESETS} resets")
}

/// Runs a long load, after each number had about ten turns, and prints how long it took.
fn show_timed(rt: &HostRuntime, load: Load) -> io::Result<()> {
    let took = run_load(rt, load, load.numbers.saturating_mul(10), TIMED_TURNS)?;
    println!(rt; "{took} nanoseconds for {TIMED_TURNS} turns")
}

/// Runs the long loads, and times them and resets.
fn run_timed(rt: &HostRuntime) -> io::Result<()> {
    for load in loads() {
        show_timed(rt, load)?;
    }
    show_resets(rt)
}

/// Runs short loads; or long ones, and times them and resets.
pub fn run(rt: &HostRuntime, is_timed: bool) -> io::Result<()> {
    if is_timed {
        return run_timed(rt);
    }
    for load in loads() {
        let _took = run_load(rt, load, 0, SHORT_TURNS)?;
    }
    Ok(())
}

//! Instructions over the vectors of a load, timed one after another.

ghost use Rattle.std.specs.Prelude.{◌≡◌, None, length};
ghost use Rattle.vcode_base.specs.Kinds.{HaveKinds, source_kinds};
ghost use Rattle.vcode_base.specs.Meaning.{shape, need};
ghost use Rattle.vcode_base.specs.Operands.{contents};

use crate::loads::{Load, Shown, Vectors};
use crate::rows::Row;
use job_steps::{fill, lengths};
use std::io;
use std::time::Instant;
use vcode_base::{Op, have_kinds};

/// How often an instruction over one word is filled in a row, since the clock does not show one time.
const REPEATS: u64 = 1_000;

/// Prints the line of an instruction: its name, and the picoseconds an element or the result's first and last word.
fn print_line(
    rt: &HostRuntime,
    load: Load,
    name: &str,
    out: &[i64],
    nanoseconds: u128,
) -> io::Result<()> {
    match (load.shown, out) {
        (Shown::Time, _) => {
            let elements = u128::from(repeats(load)).saturating_mul(u128::from(load.words.max(1)));
            let picoseconds = nanoseconds.saturating_mul(1000) / elements.max(1);
            println!(rt; "{name}\t{picoseconds}")
        }
        (Shown::Ends, [first, .., last]) => println!(rt; "{name}\t{first} .. {last}"),
        (Shown::Ends, [only]) => println!(rt; "{name}\t{only}"),
        (Shown::Ends, []) => println!(rt; "{name}\tnothing"),
    }
}

/// How often an instruction is filled in a row: once, if its words are new to the processor.
fn repeats(load: Load) -> u64 {
    match load.words {
        1 => REPEATS,
        _ => 1,
    }
}

/// The nanoseconds that an instruction took, its lengths of results found and its results filled.
fn time_of(
    rt: &HostRuntime,
    load: Load,
    op: Op,
    ops: &[&[i64]],
    first: &mut [i64],
    second: &mut [i64],
) -> io::Result<u128>
    requires kinds { HaveKinds (source_kinds op) (contents ops.now) }
    requires shape { shape op (contents ops.now) ≡ None }
    requires room { need op (contents ops.now) ≡ (length first.old, length second.old) }
{
    let start = Instant::now(rt)?;
    for _ in 0..repeats(load) {
        if lengths(op, ops).is_ok() {
            let _ = fill(op, ops, first, second);
        }
    }
    Ok(start.elapsed(rt)?.as_nanos())
}

/// Times an instruction over these operands, and prints its line.
fn show(rt: &HostRuntime, load: Load, name: &str, op: Op, ops: &[&[i64]]) -> io::Result<()> {
    if !have_kinds(op.source_kinds(), ops) {
        return println!(rt; "{name}\thas other kinds");
    }
    let Ok((first_len, second_len)) = lengths(op, ops) else {
        return println!(rt; "{name}\tdoes not fit");
    };
    let mut first = vec![in rt.alloc(); 0i64; first_len as usize]?;
    let mut second = vec![in rt.alloc(); 0i64; second_len as usize]?;
    let nanoseconds = time_of(rt, load, op, ops, &mut first, &mut second)?;
    print_line(rt, load, name, &first, nanoseconds)
}

/// Times the instruction of a row, and prints its line.
fn show_row(rt: &HostRuntime, load: Load, vectors: &Vectors, row: Row) -> io::Result<()> {
    let ops = vectors.operands(rt.alloc(), row.operands)?;
    show(rt, load, row.name, row.op, &ops)
}

/// Times the instructions of rows, and prints their lines.
pub fn show_rows(rt: &HostRuntime, load: Load, vectors: &Vectors, rows: &[Row]) -> io::Result<()> {
    for row in rows {
        show_row(rt, load, vectors, *row)?;
    }
    Ok(())
}

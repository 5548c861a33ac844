//! The lines of a code.

use std::alloc::Global;
use vcode_reader::{Function, Program};

/// How many lines a function has from its `FUNC` to its `RET`.
fn line_count(function: &Function<Global>) -> u64 {
    let Some(last) = function.line_count().checked_sub(1) else {
        return 0;
    };
    match function.item(last) {
        Some(ret) => ret.number.saturating_sub(function.line()).saturating_add(1),
        None => 0,
    }
}

/// The line of the batch with the last `RET` of a program, counted from 1, or 0 if the program has no function.
pub fn last_line_of(program: &Program<Global>) -> u64 {
    match program.functions().last() {
        Some(function) => function
            .line()
            .saturating_add(line_count(function))
            .saturating_sub(1),
        None => 0,
    }
}

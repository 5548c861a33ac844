//! The lines of the table.

use std::alloc::{AllocError, Global};

/// What a line says.
#[derive(Drop)]
pub enum TableLine {
    /// Free words of this size, with room for at most `most` holes.
    Holes { size: usize, most: usize },
    Take { len: usize },
    Give { place: usize, len: usize },
    Reset { place: usize },
    /// A memory of `size` words in at most `most` blocks.
    Plain { size: usize, most: usize },
    Packed { size: usize, most: usize },
    Sliding { size: usize, most: usize },
    Place { owner: usize, words: Vec<i64> },
    Free { number: usize },
    Pack,
    Words { number: usize },
}

/// What a line of the table says. None if it isn't one.
pub fn read_line(alloc: Global, line: &str) -> Result<Option<TableLine>, AllocError> {
    let (word, operands) = line.split_once(' ').unwrap_or((line, ""));
    match word {
        "place" => block_line(alloc, operands),
        "pack" if operands.is_empty() => Ok(Some(TableLine::Pack)),
        "take" | "reset" | "free" | "words" => Ok(line_of_one(word, operands)),
        _ => Ok(line_of_two(word, operands)),
    }
}

/// A line with one number.
fn line_of_one(word: &str, operand: &str) -> Option<TableLine> {
    let number = operand.parse().ok()?;
    match word {
        "take" => Some(TableLine::Take { len: number }),
        "reset" => Some(TableLine::Reset { place: number }),
        "free" => Some(TableLine::Free { number }),
        "words" => Some(TableLine::Words { number }),
        _ => None,
    }
}

/// A line with two numbers.
fn line_of_two(word: &str, operands: &str) -> Option<TableLine> {
    let (first, second) = operands.split_once(' ')?;
    let (first, second) = (first.parse().ok()?, second.parse().ok()?);
    match word {
        "holes" => Some(TableLine::Holes {
            size: first,
            most: second,
        }),
        "give" => Some(TableLine::Give {
            place: first,
            len: second,
        }),
        "plain" => Some(TableLine::Plain {
            size: first,
            most: second,
        }),
        "packed" => Some(TableLine::Packed {
            size: first,
            most: second,
        }),
        "sliding" => Some(TableLine::Sliding {
            size: first,
            most: second,
        }),
        _ => None,
    }
}

/// The line of a block: its owner and its words, which are numbers of 64 bits.
fn block_line(alloc: Global, operands: &str) -> Result<Option<TableLine>, AllocError> {
    let mut parts = operands.split(' ');
    let Ok(owner) = parts.next().unwrap_or("").parse() else {
        return Ok(None);
    };
    let mut words = Vec::new(alloc);
    for part in parts {
        let Ok(word) = part.parse() else {
            return Ok(None);
        };
        words.push(word)?;
    }
    Ok(Some(TableLine::Place { owner, words }))
}

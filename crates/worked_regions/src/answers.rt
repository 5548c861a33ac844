//! What lines of the table give.

use crate::blocks::{Blocks, Placing};
use crate::free_words::FreeWords;
use crate::lines::{TableLine, read_line};
use block_memory::{
    LONGEST_REGION, MOST_BLOCKS, NoRoom, PlainMemory, RegionMemory, SlidingMemory, VectorMemory,
};
use std::alloc::{AllocError, Global};

/// What the last line made that makes something.
#[derive(Drop)]
pub enum Made {
    Nothing,
    Holes(FreeWords),
    Plain(Blocks<PlainMemory<Global>>),
    Packed(Blocks<RegionMemory<Global>>),
    Sliding(Blocks<SlidingMemory<Global>>),
}

/// Does what a line says, and gives the answer.
pub fn answer(alloc: Global, made: &mut Made, line: &str) -> Result<String, AllocError> {
    let Some(line) = read_line(alloc, line)? else {
        return String::from_str(alloc, "no case");
    };
    if let Some(new) = make(alloc, &line)? {
        *made = new;
        return told(alloc, "made", made);
    }
    let what = call(alloc, made, &line)?;
    told(alloc, what.as_str(), made)
}

/// What a line makes, if it makes something that there can be.
fn make(alloc: Global, line: &TableLine) -> Result<Option<Made>, AllocError> {
    match line {
        TableLine::Holes { size, most } if *most >= 1 && *size <= LONGEST_REGION => {
            Ok(Some(Made::Holes(FreeWords::new(alloc, *size, *most)?)))
        }
        TableLine::Plain { size, most } if *most <= MOST_BLOCKS => {
            let memory = PlainMemory::new(alloc, *size, *most)?;
            Ok(Some(Made::Plain(Blocks::new(alloc, memory))))
        }
        TableLine::Packed { size, most } if *size <= LONGEST_REGION && *most <= MOST_BLOCKS => {
            let memory = RegionMemory::new(alloc, *size, *most)?;
            Ok(Some(Made::Packed(Blocks::new(alloc, memory))))
        }
        TableLine::Sliding { size, most } if *size <= LONGEST_REGION && *most <= MOST_BLOCKS => {
            let memory = SlidingMemory::new(alloc, *size, *most)?;
            Ok(Some(Made::Sliding(Blocks::new(alloc, memory))))
        }
        _ => Ok(None),
    }
}

/// An answer, and after it what there is.
fn told(alloc: Global, what: &str, made: &Made) -> Result<String, AllocError> {
    match made {
        Made::Nothing => String::from_str(alloc, what),
        Made::Holes(words) => holes_told(alloc, what, words),
        Made::Plain(blocks) => blocks_told(alloc, what, blocks, 0),
        Made::Packed(blocks) => blocks_told(alloc, what, blocks, blocks.memory().moved()),
        Made::Sliding(blocks) => blocks_told(alloc, what, blocks, blocks.memory().moved()),
    }
}

fn holes_told(alloc: Global, what: &str, words: &FreeWords) -> Result<String, AllocError> {
    let holes = words.holes();
    let (count, widest, free) = (holes.count(), holes.widest(), holes.free());
    format!(in alloc; "{what}, holes {count}, widest {widest}, free {free}")
}

fn blocks_told<M: VectorMemory>(
    alloc: Global,
    what: &str,
    blocks: &Blocks<M>,
    moved: usize,
) -> Result<String, AllocError> {
    let (used, count) = (blocks.memory().used(), blocks.memory().blocks());
    format!(in alloc; "{what}, used {used}, blocks {count}, moved {moved}")
}

/// Does a call on what there is, and gives the answer.
fn call(alloc: Global, made: &mut Made, line: &TableLine) -> Result<String, AllocError> {
    match made {
        Made::Nothing => String::from_str(alloc, "refused"),
        Made::Holes(words) => call_holes(alloc, words, line),
        Made::Plain(blocks) => call_blocks(alloc, blocks, line),
        Made::Packed(blocks) => call_blocks(alloc, blocks, line),
        Made::Sliding(blocks) => call_blocks(alloc, blocks, line),
    }
}

fn call_holes(
    alloc: Global,
    words: &mut FreeWords,
    line: &TableLine,
) -> Result<String, AllocError> {
    match line {
        TableLine::Take { len } => take(alloc, words, *len),
        TableLine::Give { place, len } => give(alloc, words, *place, *len),
        TableLine::Reset { place } => reset(alloc, words, *place),
        _ => String::from_str(alloc, "refused"),
    }
}

fn take(alloc: Global, words: &mut FreeWords, len: usize) -> Result<String, AllocError> {
    if len == 0 {
        return String::from_str(alloc, "refused");
    }
    match words.take(len) {
        Some(place) => format!(in alloc; "place {place}"),
        None => String::from_str(alloc, "none"),
    }
}

fn give(
    alloc: Global,
    words: &mut FreeWords,
    place: usize,
    len: usize,
) -> Result<String, AllocError> {
    if !words.may_give(place, len) {
        return String::from_str(alloc, "refused");
    }
    words.give(place, len);
    String::from_str(alloc, "given")
}

fn reset(alloc: Global, words: &mut FreeWords, place: usize) -> Result<String, AllocError> {
    if place > words.size() {
        return String::from_str(alloc, "refused");
    }
    words.reset(place);
    String::from_str(alloc, "reset")
}

fn call_blocks<M: VectorMemory>(
    alloc: Global,
    blocks: &mut Blocks<M>,
    line: &TableLine,
) -> Result<String, AllocError> {
    match line {
        TableLine::Place { owner, words } => placing_told(alloc, blocks.place(*owner, words)?),
        TableLine::Free { number } => freed_told(alloc, blocks.free(*number)),
        TableLine::Pack => {
            blocks.pack();
            String::from_str(alloc, "packed")
        }
        TableLine::Words { number } => block_told(alloc, blocks.block(*number)),
        _ => String::from_str(alloc, "refused"),
    }
}

fn placing_told(alloc: Global, placing: Placing) -> Result<String, AllocError> {
    match placing {
        Placing::Placed(number) => format!(in alloc; "block {number}"),
        Placing::NotPlaced(NoRoom::Full) => String::from_str(alloc, "full"),
        Placing::NotPlaced(NoRoom::Memory) => String::from_str(alloc, "no memory"),
        Placing::NoNumber => String::from_str(alloc, "refused"),
    }
}

fn freed_told(alloc: Global, was_there: bool) -> Result<String, AllocError> {
    String::from_str(alloc, if was_there { "freed" } else { "refused" })
}

fn block_told(alloc: Global, block: Option<(usize, &[i64])>) -> Result<String, AllocError> {
    match block {
        Some((owner, words)) => format!(in alloc; "owner {owner} words {words:?}"),
        None => String::from_str(alloc, "refused"),
    }
}

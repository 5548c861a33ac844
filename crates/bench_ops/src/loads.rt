//! The vectors over which instructions are timed.

ghost use Rattle.std.specs.Prelude.{◌≤◌, ◌<◌};

use crate::rows::Operand;
use std::alloc::{AllocError, Global};

/// What a run prints: the time of each instruction, or the ends of its result.
#[derive(Clone, Copy)]
pub enum Shown {
    Time,
    Ends,
}

/// What is printed, and how many words each vector has.
#[derive(Clone, Copy)]
pub struct Load {
    pub shown: Shown,
    pub words: u32,
}

/// The vectors that rows take.
#[derive(Drop)]
pub struct Vectors {
    numbers: Vec<i64>,
    shifts: Vec<i64>,
    threes: Vec<i64>,
    flags: Vec<i64>,
    mixed: Vec<i64>,
    rising: Vec<i64>,
    lengths: Vec<i64>,
}

impl Vectors {
    /// Vectors of no words.
    pub fn new(alloc: Global) -> Vectors {
        Vectors {
            numbers: Vec::new(alloc),
            shifts: Vec::new(alloc),
            threes: Vec::new(alloc),
            flags: Vec::new(alloc),
            mixed: Vec::new(alloc),
            rising: Vec::new(alloc),
            lengths: Vec::new(alloc),
        }
    }

    /// Vectors of `words` words that are in no segments. The flags are new.
    pub fn fill(
        &mut self,
        alloc: Global,
        random: &mut Random,
        words: u32,
    ) -> Result<(), AllocError> {
        self.numbers = numbers(alloc, words as usize)?;
        self.shifts = shifts(alloc, words as usize, false)?;
        self.threes = shifts(alloc, words as usize, true)?;
        self.flags = flags(alloc, random, words as usize)?;
        Ok(())
    }

    /// Vectors of `words` words in segments, with a shift for each segment. The orders and the flags are new.
    pub fn fill_segments(
        &mut self,
        alloc: Global,
        random: &mut Random,
        segments: Segments,
        words: u32,
    ) -> Result<(), AllocError> {
        self.numbers = numbers(alloc, words as usize)?;
        self.lengths = descriptor(alloc, random, segments, words)?;
        self.shifts = shifts(alloc, self.lengths.len(), false)?;
        self.mixed = indices(alloc, random, Order::Mixed, &self.lengths)?;
        self.rising = indices(alloc, random, Order::Rising, &self.lengths)?;
        self.flags = flags(alloc, random, words as usize)?;
        Ok(())
    }

    /// The words of an operand.
    fn words(&self, operand: Operand) -> &[i64] {
        match operand {
            Operand::Numbers => &self.numbers,
            Operand::Shifts => &self.shifts,
            Operand::Threes => &self.threes,
            Operand::Flags => &self.flags,
            Operand::Mixed => &self.mixed,
            Operand::Rising => &self.rising,
            Operand::Lengths => &self.lengths,
        }
    }

    /// The words of operands.
    pub fn operands(&self, alloc: Global, operands: &[Operand]) -> Result<Vec<&[i64]>, AllocError> {
        let mut words = Vec::new(alloc);
        for operand in operands {
            words.push(self.words(*operand))?;
        }
        Ok(words)
    }
}

/// Numbers without a pattern that a processor could learn, the same ones from each seed.
#[derive(Drop)]
pub struct Random {
    state: u64,
}

impl Random {
    pub fn new(seed: u64) -> Random {
        Random { state: seed }
    }

    /// One of the numbers `0..bound`.
    pub fn below(&mut self, bound: u64) -> u64
        requires { 0 < bound }
        ensures { result < bound }
    {
        self.state = self
            .state
            .wrapping_mul(6_364_136_223_846_793_005)
            .wrapping_add(1_442_695_040_888_963_407);
        (self.state >> 33) % bound
    }
}

/// The segments that a vector is in: all of it is one, or each has 6 to 14 words, and the last up to 19.
#[derive(Clone, Copy)]
pub enum Segments {
    One,
    AboutTen,
}

impl Segments {
    /// What a line says of them.
    pub fn name(self) -> &'static str {
        match self {
            Segments::One => "in one segment",
            Segments::AboutTen => "in segments of ten",
        }
    }
}

/// The order of the indices of a segment.
#[derive(Clone, Copy, PartialEq)]
pub enum Order {
    Rising,
    Mixed,
}

/// The length of the next segment, if `left` words are left.
fn next_length(random: &mut Random, segments: Segments, left: u32) -> u32
    ensures { result ≤ left }
{
    let about_ten = 6 + random.below(9) as u32;
    match segments {
        Segments::AboutTen if about_ten + 6 <= left => about_ten,
        Segments::One | Segments::AboutTen => left,
    }
}

/// A descriptor of `words` words.
fn descriptor(
    alloc: Global,
    random: &mut Random,
    segments: Segments,
    words: u32,
) -> Result<Vec<i64>, AllocError> {
    let mut lengths = Vec::new(alloc);
    let mut left = words;
    for _word in 0..words {
        if left == 0 {
            break;
        }
        let length = next_length(random, segments, left);
        lengths.push(i64::from(length))?;
        left -= length;
    }
    Ok(lengths)
}

/// Flags, half of them T.
fn flags(alloc: Global, random: &mut Random, count: usize) -> Result<Vec<i64>, AllocError> {
    let mut flags = Vec::with_capacity(alloc, count)?;
    for _flag in 0..count {
        flags.push(if random.below(2) == 0 { 0 } else { 1 })?;
    }
    Ok(flags)
}

/// Puts the words into an order that is as likely as any other.
fn mix(random: &mut Random, words: &mut [i64]) {
    for i in 0..words.len() {
        let other = random.below(i as u64 + 1) as usize;
        if other < words.len() {
            words.swap(i, other);
        }
    }
}

/// Adds the indices of a segment of `size` words.
fn push_indices(
    indices: &mut Vec<i64>,
    random: &mut Random,
    order: Order,
    size: i64,
) -> Result<(), AllocError> {
    let begin = indices.len();
    for index in 0..size {
        indices.push(index)?;
    }
    if order == Order::Mixed && begin <= indices.len() {
        mix(random, &mut indices[begin..]);
    }
    Ok(())
}

/// The indices of segments of these lengths, each of a segment once.
fn indices(
    alloc: Global,
    random: &mut Random,
    order: Order,
    lengths: &[i64],
) -> Result<Vec<i64>, AllocError> {
    let mut indices = Vec::new(alloc);
    for size in lengths {
        push_indices(&mut indices, random, order, *size)?;
    }
    Ok(indices)
}

/// `count` numbers that aren't 0, of both signs.
fn numbers(alloc: Global, count: usize) -> Result<Vec<i64>, AllocError> {
    let mut numbers = Vec::with_capacity(alloc, count)?;
    for i in 0..count {
        let small = (i % 1000) as i64;
        numbers.push(if i % 2 == 0 { small + 1 } else { -small })?;
    }
    Ok(numbers)
}

/// Shifts of 0 to 5 places, or all of 3.
fn shifts(alloc: Global, count: usize, alike: bool) -> Result<Vec<i64>, AllocError> {
    let mut shifts = Vec::with_capacity(alloc, count)?;
    for i in 0..count {
        shifts.push(if alike { 3 } else { (i % 6) as i64 })?;
    }
    Ok(shifts)
}

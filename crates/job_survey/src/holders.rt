//! What a job holds at its peak, by the lines that made it, and what of it is read later.

use crate::works::{Work, Works};
use job_history::{Next, Origin, Trail};
use job_profile::{Effect, Run};
use job_steps::Frame;
use std::alloc::{AllocError, Global};
use std::ops::Range;
use vcode_base::{Instr, Kind, StackMove};
use vcode_reader::{CodeItem, CodeLine};

/// A vector that a run holds: its words, how many entries have it, after how many peaks it was made, and the peak of
/// which it has a note, with the place of that.
#[derive(Clone, Copy, Drop)]
struct Vector {
    words: usize,
    entries: usize,
    made_in: u64,
    noted_in: u64,
    note: usize,
}

/// A vector that was held at the last peak: where it comes from, its words, how many entries had it there, and whether
/// it was read from there on.
#[derive(Clone, Copy, Drop)]
struct Note {
    origin: Origin,
    words: usize,
    entries: usize,
    is_read: bool,
}

/// An instruction that takes operands or makes results: how many elements its operands have, and the kinds of its
/// results from the bottom of the stack up.
#[derive(Clone, Copy, Drop)]
pub(crate) struct Taken {
    pub(crate) elements: u64,
    pub(crate) results: &'static [Kind],
}

/// What a run holds: its vectors, each at the number of its block; the next instruction, with the blocks of its
/// operands, if it has operands or results; the most words so far, how often they were passed, and the line at which
/// they were passed last; and notes on the vectors that were held before that, each from the first change on.
#[derive(Drop)]
pub(crate) struct Holds {
    works: Works,
    vectors: Vec<Vector>,
    taken: Taken,
    blocks: Vec<usize>,
    peak: usize,
    peaks: u64,
    line: u64,
    notes: Vec<Note>,
}

/// What is held of the vectors that a line made.
#[derive(Clone, Copy, Drop)]
pub struct Holder {
    /// The line.
    pub line: u64,
    /// The words of the vectors.
    pub words: usize,
    /// How many vectors there are.
    pub vectors: usize,
    /// How many entries have one of them.
    pub entries: usize,
    /// How many of the words are never read again, or 0 if that isn't known.
    pub unread: usize,
}

/// What is held before an instruction of a job.
#[derive(Drop)]
pub struct Holdings {
    /// What is held by the lines that made it, those with the most words first.
    pub holders: Vec<Holder>,
    /// The words that are held.
    pub words: usize,
    /// The line of the instruction.
    pub line: u64,
    /// How many of the words this run never reads again, if it returns.
    pub unread: Option<usize>,
}

/// The depths of the entries that the next instruction of a run moves, if it is a COPY or a POP.
fn moved(run: &Run<Global>) -> Range<usize> {
    match run.next_line() {
        Some(
            CodeLine {
                item: CodeItem::Do(Instr::Move(_, lower, upper)),
                ..
            },
        ) => {
            let first = usize::from(upper);
            first..first.saturating_add(usize::from(lower))
        }
        _ => 0..0,
    }
}

impl Vector {
    /// No vector.
    const NONE: Vector = Vector {
        words: 0,
        entries: 0,
        made_in: 0,
        noted_in: 0,
        note: 0,
    };

    /// Whether it was held at the last peak, the one of this number, and has no note of that.
    #[inline(always)]
    fn lacks_note(&self, peaks: u64) -> bool {
        self.made_in < peaks && self.noted_in != peaks
    }

    /// What it is, by where it comes from.
    fn noted(&self, origin: Origin) -> Note {
        Note {
            origin,
            words: self.words,
            entries: self.entries,
            is_read: false,
        }
    }
}

impl Holds {
    /// What a run holds that has executed nothing.
    pub(crate) fn new(alloc: Global, run: &Run<Global>) -> Result<Holds, AllocError> {
        let works = Works::of(alloc, run.job().verified().program())?;
        Ok(Holds {
            works,
            vectors: Vec::new(alloc),
            taken: Taken {
                elements: 0,
                results: &[],
            },
            blocks: Vec::new(alloc),
            peak: 0,
            peaks: 0,
            line: match Next::of(run) {
                Some(next) => next.line,
                None => 0,
            },
            notes: Vec::new(alloc),
        })
    }

    /// Makes a note of the vector of a block, if it was held at the last peak and has none.
    #[inline(always)]
    fn note(&mut self, trail: &Trail<Global>, block: usize) -> Result<(), AllocError> {
        let lacks_note = match self.vectors.get(block) {
            Some(vector) => vector.lacks_note(self.peaks),
            None => false,
        };
        if lacks_note {
            return self.push_note(trail, block);
        }
        Ok(())
    }

    /// Makes a note of the vector of a block.
    #[inline(never)]
    fn push_note(&mut self, trail: &Trail<Global>, block: usize) -> Result<(), AllocError> {
        if let (Some(vector), Some(origin)) = (
            self.vectors.get_mut(block),
            trail.origin_at(block),
        ) {
            vector.noted_in = self.peaks;
            vector.note = self.notes.len();
            self.notes.push(vector.noted(origin))?;
        }
        Ok(())
    }

    /// Notes that the vector of a block is read, if it was held at the last peak.
    #[inline(always)]
    fn read(&mut self, trail: &Trail<Global>, block: usize) -> Result<(), AllocError> {
        match self.vectors.get(block) {
            Some(vector) if vector.made_in < self.peaks => self.mark_read(trail, block),
            Some(_) | None => Ok(()),
        }
    }

    /// Notes that the vector of a block, which was held at the last peak, is read.
    fn mark_read(&mut self, trail: &Trail<Global>, block: usize) -> Result<(), AllocError> {
        self.note(trail, block)?;
        if let Some(vector) = self.vectors.get(block) {
            if let Some(note) = self.notes.get_mut(vector.note) {
                note.is_read = true;
            }
        }
        Ok(())
    }

    /// Counts an entry less of the vector of a block.
    #[inline(always)]
    fn drop_entry(&mut self, block: usize) {
        if let Some(vector) = self.vectors.get_mut(block) {
            vector.entries = vector.entries.saturating_sub(1);
        }
    }

    /// Counts copies of entries of a run, which the next instruction makes.
    fn copy(&mut self, trail: &Trail<Global>, run: &Run<Global>) -> Result<(), AllocError> {
        for depth in moved(run) {
            if let Some(block) = run.block(depth) {
                self.note(trail, block)?;
                if let Some(vector) = self.vectors.get_mut(block) {
                    vector.entries = vector.entries.saturating_add(1);
                }
            }
        }
        Ok(())
    }

    /// Counts entries of a run that go with the next instruction.
    fn pop(&mut self, trail: &Trail<Global>, run: &Run<Global>) -> Result<(), AllocError> {
        for depth in moved(run) {
            if let Some(block) = run.block(depth) {
                self.note(trail, block)?;
                self.drop_entry(block);
            }
        }
        Ok(())
    }

    /// How many words the vector of a block has.
    #[inline(always)]
    fn words(&self, block: usize) -> u64 {
        match self.vectors.get(block) {
            Some(vector) => vector.words as u64,
            None => 0,
        }
    }

    /// Looks at the operands of the next instruction of a run, which is at a frame.
    #[inline(always)]
    fn take(&mut self, run: &Run<Global>, frame: Frame) -> Result<(), AllocError> {
        let Work { operands, results } = self.works.at(frame);
        self.blocks.clear();
        let mut elements: u64 = 0;
        for depth in 0..operands {
            if let Some(block) = run.block(depth) {
                self.blocks.push(block)?;
                elements = elements.saturating_add(self.words(block));
            }
        }
        self.taken = Taken { elements, results };
        Ok(())
    }

    /// Looks at the next instruction of a run, which is at a frame and does this: at the entries that it copies or
    /// pops, or at its operands.
    #[inline(always)]
    pub(crate) fn look(
        &mut self,
        trail: &Trail<Global>,
        run: &Run<Global>,
        effect: Effect,
        frame: Frame,
    ) -> Result<(), AllocError> {
        match effect {
            Effect::Makes | Effect::MakesTwo | Effect::Chooses => self.take(run, frame),
            Effect::Moves(StackMove::Copy) => self.copy(trail, run),
            Effect::Moves(StackMove::Pop) => self.pop(trail, run),
            Effect::Moves(StackMove::MoveToTop)
            | Effect::Calls
            | Effect::Returns
            | Effect::Nothing => Ok(()),
        }
    }

    /// Follows an instruction with operands or results, which was looked at and which a run has executed, up to its
    /// results. Answers what it was.
    pub(crate) fn release(
        &mut self,
        trail: &Trail<Global>,
        run: &Run<Global>,
        line: u64,
    ) -> Result<Taken, AllocError> {
        if run.peak() > self.peak {
            self.pass(run.peak(), line);
        }
        for place in 0..self.blocks.len() {
            if let Some(block) = self.blocks.get(place).copied() {
                self.read(trail, block)?;
                self.drop_entry(block);
            }
        }
        Ok(self.taken)
    }

    /// Notes that the most words were passed at a line.
    fn pass(&mut self, peak: usize, line: u64) {
        self.peak = peak;
        self.peaks = self.peaks.saturating_add(1);
        self.line = line;
        self.notes.clear();
    }

    /// Adds a vector of this many words, of which there is one entry, in a block.
    #[inline(always)]
    pub(crate) fn put(&mut self, block: usize, words: usize) -> Result<(), AllocError> {
        for _ in self.vectors.len()..=block {
            self.vectors.push(Vector::NONE)?;
        }
        let made_in = self.peaks;
        if let Some(vector) = self.vectors.get_mut(block) {
            *vector = Vector {
                words,
                entries: 1,
                made_in,
                noted_in: 0,
                note: 0,
            };
        }
        Ok(())
    }

    /// Notes that all entries of a run are read.
    pub(crate) fn read_all(
        &mut self,
        trail: &Trail<Global>,
        run: &Run<Global>,
    ) -> Result<(), AllocError> {
        for depth in 0..run.depth() {
            if let Some(block) = run.block(depth) {
                self.read(trail, block)?;
            }
        }
        Ok(())
    }

    /// What was held before the first instruction at the peak of a run that is over, and which of it was read from
    /// there on, if the run returned.
    pub(crate) fn at_peak(
        &self,
        alloc: Global,
        trail: &Trail<Global>,
        returned: bool,
    ) -> Result<Holdings, AllocError> {
        let mut notes = self.notes.to_vec(alloc)?;
        for (block, vector) in self.vectors.iter().enumerate() {
            if vector.entries > 0 && vector.lacks_note(self.peaks) {
                push_vector(&mut notes, trail, block, vector)?;
            }
        }
        Holdings::of(alloc, notes, self.line, returned)
    }

    /// What was held before the last instruction of a run, which is of a line and was refused.
    pub(crate) fn at_end(
        &self,
        alloc: Global,
        trail: &Trail<Global>,
        line: u64,
    ) -> Result<Holdings, AllocError> {
        let mut notes = Vec::new(alloc);
        for (block, vector) in self.vectors.iter().enumerate() {
            if vector.entries > 0 {
                push_vector(&mut notes, trail, block, vector)?;
            }
        }
        Holdings::of(alloc, notes, line, false)
    }
}

/// Adds a note on the vector of a block.
fn push_vector(
    notes: &mut Vec<Note>,
    trail: &Trail<Global>,
    block: usize,
    vector: &Vector,
) -> Result<(), AllocError> {
    if let Some(origin) = trail.origin_at(block) {
        notes.push(vector.noted(origin))?;
    }
    Ok(())
}

impl Holder {
    /// Adds what is held of another vector of its line.
    fn add(&mut self, other: Holder) {
        self.words = self.words.saturating_add(other.words);
        self.vectors = self.vectors.saturating_add(other.vectors);
        self.entries = self.entries.saturating_add(other.entries);
        self.unread = self.unread.saturating_add(other.unread);
    }
}

/// Adds a vector to what its line holds, the last of these lines or a new one.
fn add_vector(
    holders: &mut Vec<Holder>,
    note: &Note,
    are_reads_known: bool,
) -> Result<(), AllocError> {
    let is_unread = are_reads_known && !note.is_read;
    let added = Holder {
        line: note.origin.line,
        words: note.words,
        vectors: 1,
        entries: note.entries,
        unread: if is_unread { note.words } else { 0 },
    };
    match holders.last_mut() {
        Some(holder) if holder.line == added.line => {
            holder.add(added);
            Ok(())
        }
        Some(_) | None => {
            holders.push(added)?;
            Ok(())
        }
    }
}

/// What the lines hold of these vectors, those with the most words first.
fn holders_of(
    alloc: Global,
    mut notes: Vec<Note>,
    are_reads_known: bool,
) -> Result<Vec<Holder>, AllocError> {
    notes.sort_by_key(|note| (note.origin.line, note.origin.before))?;
    let mut holders = Vec::new(alloc);
    for note in &notes {
        add_vector(&mut holders, note, are_reads_known)?;
    }
    holders.sort_by_key(|holder| usize::MAX - holder.words)?;
    Ok(holders)
}

impl Holdings {
    /// What is held of these vectors before an instruction of a line, and which of them are read later, if that is
    /// known.
    fn of(
        alloc: Global,
        notes: Vec<Note>,
        line: u64,
        are_reads_known: bool,
    ) -> Result<Holdings, AllocError> {
        let holders = holders_of(alloc, notes, are_reads_known)?;
        let (mut words, mut unread): (usize, usize) = (0, 0);
        for holder in &holders {
            words = words.saturating_add(holder.words);
            unread = unread.saturating_add(holder.unread);
        }
        Ok(Holdings {
            holders,
            words,
            line,
            unread: if are_reads_known { Some(unread) } else { None },
        })
    }
}

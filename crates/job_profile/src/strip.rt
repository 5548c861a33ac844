//! Columns that follow one another, of which there are never too many.

ghost use Rattle.std.specs.Prelude.{◌≡◌, ◌+◌, ◌-◌, ◌*◌, ◌<◌, ◌≤◌, ◌^◌, ◌++◌, ℕ, IfOk, [], ◌∷◌};
ghost use Rattle.std.specs.Prelude.{length, slice_index_or, slice_set, max, vec_capacity};
ghost use Rattle.job_profile.specs.Columns.{AreFine, joined, no_column, halved, highest};
ghost use Rattle.job_profile.specs.Strips.{IsStrip, AreJoined, HasShape};
ghost use Rattle.job_profile.specs.declared.strip.TheConstants.{MOST_COLUMNS};

use std::alloc::{AllocError, Allocator};

/// The most columns that are kept.
pub const MOST_COLUMNS: usize = 2048;

/// What instructions that follow one another held.
#[derive(Clone, Copy, PartialEq, Eq, Debug)]
pub struct Column {
    /// The most words that were held and needed at one of them.
    pub most: usize,
    /// The least words that were held after one of them.
    pub least: usize,
    /// The line of the first that held and needed the most.
    pub line: usize,
}

/// Two columns that follow one another as one.
#[inline(always)]
fn joined(first: Column, second: Column) -> Column
    ensures { result ≡ joined first second }
{
    Column {
        most: first.most.max(second.most),
        least: first.least.min(second.least),
        line: if first.most < second.most {
            second.line
        } else {
            first.line
        },
    }
}

/// Puts a column into the one before it.
#[inline(always)]
fn join(first: &mut Column, second: Column)
    ensures { first.new ≡ joined first.old second }
{
    if first.most < second.most {
        first.most = second.most;
        first.line = second.line;
    }
    if second.least < first.least {
        first.least = second.least;
    }
}

/// Puts each two columns into the first half, as one.
fn join_pairs<A: Allocator>(columns: &mut Vec<Column, A>)
    ensures joined { AreJoined columns.old.items columns.new.items }
    ensures capacity { vec_capacity columns.new ≡ vec_capacity columns.old }
{
    for place in 0..columns.len() / 2 {
        columns[place] = joined(columns[2 * place], columns[2 * place + 1]);
    }
}

/// Columns of instructions that follow one another from the first on, each of as many, and how many more go into the
/// last.
#[derive(Drop)]
pub(crate) struct Strip<A: Allocator> {
    pub(crate) columns: Vec<Column, A>,
    pub(crate) each: u64,
    room: u64,
    ghost capacity: { MOST_COLUMNS ≤ vec_capacity columns },
}

impl<A: Allocator> Strip<A> {
    /// No column.
    pub(crate) fn new(alloc: A) -> Result<Strip<A>, AllocError>
        ensures { IfOk result (λ strip. (strip.columns.items ≡ []) × (strip.each ≡ 1) × (strip.room ≡ 0)) }
    {
        let columns = Vec::with_capacity(alloc, MOST_COLUMNS)?;
        Ok(Strip {
            columns,
            each: 1,
            room: 0,
        })
    }

    /// Adds an instruction.
    #[inline(always)]
    pub(crate) fn add(&mut self, next: Column)
        requires { (n : ℕ) × HasShape n (length self.old.columns.items) self.old.each self.old.room × (n < 2 ^ 64) }
        ensures strip { (of : ℕ → Column) (n : ℕ) → IsStrip of n self.old.columns.items self.old.each self.old.room
            → next ≡ of n → IsStrip of (n + 1) self.new.columns.items self.new.each self.new.room }
        ensures fine { (of : ℕ → Column) (n : ℕ) → IsStrip of n self.old.columns.items self.old.each self.old.room
            → AreFine (n + 1) self.new.each }
        ensures highest { highest self.new.columns.items ≡ max (highest self.old.columns.items) next.most }
    {
        if self.room > 0 {
            self.widen(next);
            return;
        }
        self.make_room();
        self.begin(next);
    }

    /// Makes each two columns one if there are as many as there may be. The last column has no room.
    #[inline(never)]
    fn make_room(&mut self)
        requires few { length self.old.columns.items ≤ MOST_COLUMNS }
        requires fits { length self.old.columns.items ≡ MOST_COLUMNS → self.old.each * 2 < 2 ^ 64 }
        requires room { self.old.room ≡ 0 }
        ensures strip { (of : ℕ → Column) (n : ℕ) → IsStrip of n self.old.columns.items self.old.each self.old.room
            → IsStrip of n self.new.columns.items self.new.each self.new.room }
        ensures highest { highest self.new.columns.items ≡ highest self.old.columns.items }
        ensures few { length self.new.columns.items < MOST_COLUMNS }
        ensures each { self.old.each ≤ self.new.each }
        ensures room { self.new.room ≡ 0 }
    {
        if self.columns.len() == MOST_COLUMNS {
            self.fold();
        }
    }
}

impl<A: Allocator> Strip<A> {
    /// The last column is of one instruction more.
    #[inline(always)]
    fn widen(&mut self, next: Column)
        requires { (0 < length self.old.columns.items) × (0 < self.old.room) }
        ensures columns { self.new.columns.items ≡ slice_set self.old.columns.items (length self.old.columns.items - 1)
            (joined (slice_index_or self.old.columns.items (length self.old.columns.items - 1) no_column) next) }
        ensures each { self.new.each ≡ self.old.each }
        ensures room { self.new.room ≡ self.old.room - 1 }
    {
        let last = self.columns.len() - 1;
        join(&mut self.columns[last], next);
        self.room -= 1;
    }

    /// Each two columns become one.
    fn fold(&mut self)
        requires full { length self.old.columns.items ≡ MOST_COLUMNS }
        requires fits { self.old.each * 2 < 2 ^ 64 }
        ensures columns { self.new.columns.items ≡ halved self.old.columns.items }
        ensures each { self.new.each ≡ self.old.each * 2 }
        ensures room { self.new.room ≡ self.old.room }
    {
        join_pairs(&mut self.columns);
        self.columns.truncate(MOST_COLUMNS / 2);
        self.each *= 2;
    }

    /// A column of one instruction.
    fn begin(&mut self, next: Column)
        requires few { length self.old.columns.items < MOST_COLUMNS }
        requires each { 0 < self.old.each }
        ensures columns { self.new.columns.items ≡ self.old.columns.items ++ next ∷ [] }
        ensures each { self.new.each ≡ self.old.each }
        ensures room { self.new.room ≡ self.old.each - 1 }
    {
        self.columns.push_reserved(next);
        self.room = self.each - 1;
    }
}

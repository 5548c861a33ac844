//! How many workers find work beside the lock, and whether one thread alone would be faster.

use job_machine::Ticket;
use std::alloc::Allocator;
use vcode_base::{Arith, Elementwise, Fold, Op, Segmented};

/// What a step takes under the lock beside the words that it copies, in units of a copied word.
const FIXED: u64 = 2_048;

/// What a step takes on one thread alone beside what it computes and copies, in the same units.
const FIXED_ALONE: u64 = 512;

/// The words of a step past which they no longer lie near the processor, and a copied word takes twice as long.
const NEAR: u64 = 131_072;

/// The sum under the lock from which on the older half of what was seen is forgotten.
const MOST: u64 = 4_194_304;

/// A step counts once more each time that its operands have this number of words.
const ONCE_MORE: u64 = 1_024;

/// What the latest steps took under the lock and outside it, and what they would have taken on one thread that carries
/// out each in one go, in units of about the time in which a word is copied.
///
/// Only one worker at a time is under the lock, so that as many find work as what is outside is greater than what is
/// under it.
#[derive(Drop, Clone, Copy)]
pub(crate) struct Estimate {
    inside: u64,
    outside: u64,
    alone: u64,
    /// How many steps were seen, a long one counted as several. None is forgotten.
    steps: u64,
}

impl Estimate {
    /// Of no step.
    pub(crate) fn new() -> Estimate {
        Estimate {
            inside: 0,
            outside: 0,
            alone: 0,
            steps: 0,
        }
    }

    /// Adds a step, and answers how many words its operands have. Its results are taken to be as long as the longest.
    pub(crate) fn add<A: Allocator>(&mut self, ticket: &Ticket<A>) -> u64 {
        let (words, longest) = operand_words(ticket);
        let inside = inside_weight(words, longest);
        let outside = weight(ticket.op()).saturating_mul(longest);
        self.inside = self.inside.saturating_add(inside);
        self.outside = self.outside.saturating_add(outside);
        self.alone = self
            .alone
            .saturating_add(outside)
            .saturating_add(longest)
            .saturating_add(FIXED_ALONE);
        self.steps = self.steps.saturating_add(1 + words / ONCE_MORE);
        self.forget();
        words
    }

    /// How many steps were seen, a long one counted as several.
    pub(crate) fn steps(&self) -> u64 {
        self.steps
    }

    /// Forgets the older half of what was seen, if that is much.
    fn forget(&mut self) {
        if self.inside > MOST {
            self.inside /= 2;
            self.outside /= 2;
            self.alone /= 2;
        }
    }

    /// Whether one more worker beside these would find work, counting this percentage of the time spent under the lock.
    pub(crate) fn feeds_more_than(&self, workers: usize, percent: u64) -> bool {
        let taken = self
            .inside
            .saturating_mul(percent)
            .saturating_mul((workers as u64).saturating_sub(1));
        taken < self.outside.saturating_mul(100)
    }

    /// Whether workers take at most a third more of the processors' time than one thread alone, so that two of them end
    /// in two thirds of its time. What is under the lock takes at most two thirds of it then, too: a step is under the
    /// lock for at least twice as long as one thread takes beside computing it.
    pub(crate) fn pays(&self) -> bool {
        let whole = self.inside.saturating_add(self.outside);
        whole.saturating_mul(3) <= self.alone.saturating_mul(4)
    }

    /// Whether more steps may show that workers pay: they take at most half more of the processors' time. The first
    /// steps of a job are shorter than later ones.
    pub(crate) fn may_pay(&self) -> bool {
        let whole = self.inside.saturating_add(self.outside);
        whole.saturating_mul(2) <= self.alone.saturating_mul(3)
    }
}

/// The words of all operands of a step, and of the longest.
fn operand_words<A: Allocator>(ticket: &Ticket<A>) -> (u64, u64) {
    let mut words = 0u64;
    let mut longest = 0;
    for place in 0..ticket.operand_count() {
        let len = ticket.operand(place).len() as u64;
        words = words.saturating_add(len);
        longest = longest.max(len);
    }
    (words, longest)
}

/// What a step takes under the lock, which copies its operands, and results as long as the longest of them.
fn inside_weight(words: u64, longest: u64) -> u64 {
    let copied = words.saturating_add(longest);
    let near = if copied > NEAR { 2 } else { 1 };
    copied.saturating_mul(near).saturating_add(FIXED)
}

/// What an instruction computes for a word of its result, in units of about the time in which a word is copied.
fn weight(op: Op) -> u64 {
    match op {
        Op::Elementwise(op) => elementwise_weight(op),
        Op::Segmented(op) => segmented_weight(op),
        Op::Const(_) | Op::If | Op::Move(..) | Op::Call | Op::Return => 1,
    }
}

fn elementwise_weight(op: Elementwise) -> u64 {
    match op {
        Elementwise::Arith(Arith::Divide | Arith::Remainder) => 20,
        Elementwise::Arith(Arith::ShiftLeft | Arith::ShiftRight) => 3,
        Elementwise::Arith(Arith::Multiply) | Elementwise::Compare(_) | Elementwise::Select(_) => 2,
        _ => 1,
    }
}

fn segmented_weight(op: Segmented) -> u64 {
    match op {
        Segmented::Permute(_) | Segmented::DefaultPermute(_) => 8,
        Segmented::Scan(Fold::Product) | Segmented::Reduce(Fold::Product) => 3,
        Segmented::Pack(_) | Segmented::BackPermute(_) | Segmented::Scan(_) => 2,
        _ => 1,
    }
}

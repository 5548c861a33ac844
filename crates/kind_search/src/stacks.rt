//! The stacks of the paths through a body.
//!
//! A stack is a list of pieces, and the stacks of all paths share what lies below. So an IF copies nothing, and an
//! instruction that copies many entries adds a few pieces.

use crate::classes::{Classes, KindId};
use crate::fault::PathFault;
use std::alloc::{AllocError, Allocator};
use vcode_base::{Kind, StackMove};
use verifier::KindFault;

/// Entries that are moved are written out as one piece if they lie in more pieces than this.
const MOST_PIECES: usize = 16;

/// The most entries that are written out for the paths through a body.
const MOST_WRITTEN: usize = 67_108_864;

/// The most pieces of the stacks of the paths through a body.
const MOST_NODES: usize = 33_554_432;

/// Entries that lie next to each other among those that are written out, from the bottom up.
#[derive(Clone, Copy)]
pub(crate) struct Piece {
    pub from: u32,
    pub count: u32,
}

impl Piece {
    /// Whether a place is one of this piece.
    pub(crate) fn has(self, place: u32) -> bool {
        self.from <= place && place - self.from < self.count
    }
}

/// A piece, and the node of the one below it.
#[derive(Clone, Copy)]
struct Node {
    piece: Piece,
    below: u32,
}

/// A place in a stack: right above the first `count` entries of a node's piece. It is 0 of the node 0 at the bottom,
/// and nowhere else 0.
#[derive(Clone, Copy, PartialEq, Eq)]
struct Level {
    node: u32,
    count: u32,
}

/// The stack of a path.
#[derive(Clone, Copy, Drop)]
pub struct Stack {
    top: Level,
    /// How many entries it has.
    pub(crate) height: usize,
    /// The fewest that it has had in the innermost part of an IF.
    pub(crate) lowest: usize,
}

/// The entries and pieces of the stacks of all paths.
#[derive(Drop)]
pub(crate) struct Stacks<A: Allocator> {
    /// The entries that are written out. Those before `kept` stay for all functions.
    entries: Vec<KindId, A>,
    kept: usize,
    /// The place of the first of the three kinds that are put. It is 0 if the lines that put them aren't told apart.
    pub(crate) known: u32,
    nodes: Vec<Node, A>,
    /// The pieces that are moved, from the top down.
    moved: Vec<Piece, A>,
    /// The most entries of a stack.
    most_entries: usize,
}

impl<A: Allocator + Copy> Stacks<A> {
    /// The entries are at first the numbers below `count`, each at its own place. No stack may have more than
    /// `most_entries` entries.
    pub(crate) fn new(alloc: A, count: u32, most_entries: usize) -> Result<Stacks<A>, AllocError> {
        let entries: Vec<KindId, A> = (0..count).map(|id| KindId(id)).collect(alloc)?;
        Ok(Stacks {
            kept: entries.len(),
            entries,
            known: 0,
            nodes: Vec::new(alloc),
            moved: Vec::new(alloc),
            most_entries,
        })
    }
}

impl<A: Allocator> Stacks<A> {
    /// The stack with which the walk through a body begins: this piece. The stacks of all other paths are void.
    pub(crate) fn begin(&mut self, piece: Piece) -> Result<Stack, PathFault> {
        self.entries.truncate(self.kept);
        self.nodes.clear();
        let bottom = Piece { from: 0, count: 0 };
        self.nodes.push(Node {
            piece: bottom,
            below: 0,
        })?;
        let mut stack = Stack {
            top: Level { node: 0, count: 0 },
            height: 0,
            lowest: 0,
        };
        self.put(&mut stack, piece)?;
        stack.lowest = stack.height;
        Ok(stack)
    }

    /// From now on the kinds that are put are the three numbers from this one on. All that is written out stays.
    pub(crate) fn add_known(&mut self, first: u32) -> Result<(), PathFault> {
        let place = self.entries.len();
        if place >= MOST_WRITTEN {
            return Err(PathFault::ManyEntries);
        }
        self.known = place as u32;
        for id in first..first.saturating_add(KindId::KNOWN) {
            self.entries.push(KindId(id))?;
        }
        self.kept = self.entries.len();
        Ok(())
    }

    /// The place of a kind that is put.
    #[inline]
    fn place_of(&self, kind: Kind) -> u32 {
        self.known.saturating_add(KindId::of(kind).0)
    }

    /// The entry that is written out at a place.
    #[inline]
    pub(crate) fn entry(&self, place: u32) -> KindId {
        match self.entries.get(place as usize) {
            Some(id) => *id,
            None => KindId(place),
        }
    }

    /// The level above all of a node.
    fn whole(&self, node: u32) -> Level {
        match self.nodes.get(node as usize) {
            Some(Node { piece, below: _ }) => Level {
                node,
                count: piece.count,
            },
            None => Level { node: 0, count: 0 },
        }
    }

    /// The entries right below a level that lie in one piece, at most `most` of them, and the level below them. None
    /// at the bottom.
    fn next_piece(&self, level: Level, most: u32) -> Option<(Piece, Level)> {
        let Node { piece, below } = *self.nodes.get(level.node as usize)?;
        let count = level.count.min(most);
        let left = level.count - count;
        if count == 0 {
            return None;
        }
        let taken = Piece {
            from: piece.from.checked_add(left)?,
            count,
        };
        let after = if left == 0 {
            self.whole(below)
        } else {
            Level {
                node: level.node,
                count: left,
            }
        };
        Some((taken, after))
    }

    /// The node of all that lies below a level.
    fn node_at(&mut self, level: Level) -> Result<u32, PathFault> {
        let whole = self.whole(level.node);
        if whole == level {
            return Ok(level.node);
        }
        let Some(node) = self.nodes.get(level.node as usize).copied() else {
            return Ok(0);
        };
        let piece = Piece {
            from: node.piece.from,
            count: level.count,
        };
        self.add_node(Node {
            piece,
            below: node.below,
        })
    }

    /// Adds a node.
    fn add_node(&mut self, node: Node) -> Result<u32, PathFault> {
        let place = self.nodes.len();
        if place >= MOST_NODES {
            return Err(PathFault::ManyEntries);
        }
        self.nodes.push(node)?;
        Ok(place as u32)
    }

    /// Puts a piece on a stack.
    pub(crate) fn put(&mut self, stack: &mut Stack, piece: Piece) -> Result<(), PathFault> {
        if piece.count == 0 {
            return Ok(());
        }
        let count = piece.count as usize;
        if count > self.most_entries.saturating_sub(stack.height) {
            return Err(PathFault::ManyEntries);
        }
        let below = self.node_at(stack.top)?;
        let node = self.add_node(Node { piece, below })?;
        stack.top = Level {
            node,
            count: piece.count,
        };
        stack.height = stack.height.saturating_add(count);
        Ok(())
    }

    /// Puts kinds on a stack.
    pub(crate) fn put_kinds(&mut self, stack: &mut Stack, kinds: &[Kind]) -> Result<(), PathFault> {
        for kind in kinds {
            let from = self.place_of(*kind);
            self.put(stack, Piece { from, count: 1 })?;
        }
        Ok(())
    }

    /// Takes entries of these kinds off a stack.
    pub(crate) fn take_kinds(
        &mut self,
        classes: &mut Classes<A>,
        stack: &mut Stack,
        kinds: &[Kind],
    ) -> Result<(), PathFault> {
        for kind in kinds.iter().rev() {
            let Some((piece, below)) = self.next_piece(stack.top, 1) else {
                return Err(missing());
            };
            stack.lower(below, 1);
            let entry = self.entry(piece.from);
            if !classes.unify(entry, KindId::of(*kind)) {
                return Err(PathFault::OtherKind(entry));
            }
        }
        Ok(())
    }

    /// Takes entries off a stack, whose kinds have to be those of a piece of the same length.
    pub(crate) fn take_like(
        &mut self,
        classes: &mut Classes<A>,
        stack: &mut Stack,
        like: Piece,
    ) -> Result<(), PathFault> {
        self.moved.clear();
        self.take(stack, like.count)?;
        let mut from = like.from;
        for piece in self.moved.iter().rev() {
            let part = Piece {
                from,
                count: piece.count,
            };
            self.unify(classes, *piece, part)?;
            from = from.saturating_add(piece.count);
        }
        Ok(())
    }

    /// Takes `count` entries off a stack, and adds their pieces to those that are moved.
    fn take(&mut self, stack: &mut Stack, count: u32) -> Result<(), PathFault> {
        let mut left = count;
        for _ in 0..count {
            if left == 0 {
                break;
            }
            let Some((piece, below)) = self.next_piece(stack.top, left) else {
                return Err(missing());
            };
            stack.lower(below, piece.count);
            self.moved.push(piece)?;
            left = left.saturating_sub(piece.count);
        }
        Ok(())
    }

    /// Puts those of the pieces that are moved on a stack which have these places, the last first.
    fn put_moved(&mut self, stack: &mut Stack, from: usize, until: usize) -> Result<(), PathFault> {
        if until.saturating_sub(from) > MOST_PIECES {
            let piece = self.written_out(from, until)?;
            return self.put(stack, piece);
        }
        for place in (from..until).rev() {
            if let Some(piece) = self.moved.get(place).copied() {
                self.put(stack, piece)?;
            }
        }
        Ok(())
    }

    /// One piece with the entries of those of the pieces that are moved which have these places, the last first.
    fn written_out(&mut self, from: usize, until: usize) -> Result<Piece, PathFault> {
        let begin = self.entries.len();
        for place in (from..until).rev() {
            if let Some(piece) = self.moved.get(place).copied() {
                self.write_out(piece)?;
            }
        }
        let count = self.entries.len().saturating_sub(begin);
        match (u32::try_from(begin), u32::try_from(count)) {
            (Ok(from), Ok(count)) => Ok(Piece { from, count }),
            _ => Err(PathFault::ManyEntries),
        }
    }

    /// Writes out the entries of a piece once more.
    fn write_out(&mut self, piece: Piece) -> Result<(), PathFault> {
        let from = piece.from as usize;
        let until = from + piece.count as usize;
        if self.entries.len() >= MOST_WRITTEN {
            return Err(PathFault::ManyEntries);
        }
        if until <= self.entries.len() {
            self.entries.extend_from_within(from..until)?;
        }
        Ok(())
    }

    /// Moves entries at the top of a stack.
    pub(crate) fn shift(
        &mut self,
        stack: &mut Stack,
        motion: StackMove,
        lower: u16,
        upper: u16,
    ) -> Result<(), PathFault> {
        let mut below = *stack;
        self.moved.clear();
        self.take(&mut below, u32::from(upper))?;
        let uppers = self.moved.len();
        self.take(&mut below, u32::from(lower))?;
        let all = self.moved.len();
        match motion {
            StackMove::Copy => self.put_moved(stack, uppers, all),
            StackMove::Pop => {
                *stack = below;
                self.put_moved(stack, 0, uppers)
            }
            StackMove::MoveToTop => {
                *stack = below;
                self.put_moved(stack, 0, uppers)?;
                self.put_moved(stack, uppers, all)
            }
        }
    }

    /// Has the entries of two pieces be of one kind at each place.
    pub(crate) fn unify(
        &self,
        classes: &mut Classes<A>,
        one: Piece,
        other: Piece,
    ) -> Result<(), PathFault> {
        if one.from == other.from {
            return Ok(());
        }
        for place in 0..one.count.min(other.count) {
            let entry = self.entry(one.from.saturating_add(place));
            if !classes.unify(entry, self.entry(other.from.saturating_add(place))) {
                return Err(PathFault::OtherKind(entry));
            }
        }
        Ok(())
    }

    /// The stack after an IF whose parts end with these two, which have to be of equal kinds: the one that has more of
    /// the entries that it began with. None if they aren't. Where both have the same entries, these aren't looked at.
    pub(crate) fn join(&self, classes: &mut Classes<A>, one: Stack, other: Stack) -> Option<Stack> {
        let mut ones = one.top;
        let mut others = other.top;
        for _ in 0..one.height {
            if ones == others {
                break;
            }
            let most = ones.count.min(others.count);
            let (piece, below) = self.next_piece(ones, most)?;
            let (like, below_like) = self.next_piece(others, most)?;
            self.unify(classes, piece, like).ok()?;
            ones = below;
            others = below_like;
        }
        if ones != others {
            return None;
        }
        Some(if other.lowest > one.lowest {
            other
        } else {
            one
        })
    }

    /// The stack after an IF whose parts end with these two, which are of equal kinds. If the lines that put kinds have
    /// numbers of their own, an entry in which the two differ gets the number by which its kind is put from now on.
    pub(crate) fn merge(
        &mut self,
        classes: &mut Classes<A>,
        one: Stack,
        other: Stack,
    ) -> Result<Stack, PathFault> {
        let (mut stack, mut other) = (one, other);
        let above = one.height.saturating_sub(one.lowest.min(other.lowest));
        let ones = self.take_out(&mut stack, above)?;
        let others = self.take_out(&mut other, above)?;
        for place in 0..ones.count {
            let at = ones.from.saturating_add(place);
            self.merge_entry(classes, at, others.from.saturating_add(place));
        }
        self.put(&mut stack, ones)?;
        Ok(stack)
    }

    /// The entry at the place `one` becomes that of its kind that is put now, unless it is the entry at the other.
    fn merge_entry(&mut self, classes: &mut Classes<A>, one: u32, other: u32) {
        let entry = self.entry(one);
        if entry != self.entry(other) {
            let merged = self.entry(self.place_of(classes.kind(entry)));
            self.set_entry(one as usize, merged);
        }
    }

    /// Takes `count` entries off a stack, and writes them out as one piece.
    fn take_out(&mut self, stack: &mut Stack, count: usize) -> Result<Piece, PathFault> {
        let Ok(count) = u32::try_from(count) else {
            return Err(PathFault::ManyEntries);
        };
        self.moved.clear();
        self.take(stack, count)?;
        let all = self.moved.len();
        self.written_out(0, all)
    }

    /// The entries of a stack, from the bottom up.
    pub(crate) fn entries_of(&mut self, stack: Stack) -> Result<&[KindId], PathFault> {
        let mut stack = stack;
        let height = stack.height;
        let piece = self.take_out(&mut stack, height)?;
        Ok(self.entries.get(piece.from as usize..).unwrap_or(&[]))
    }

    /// Keeps the entries of a stack for the walks through other bodies, as one piece.
    pub(crate) fn keep(&mut self, stack: Stack) -> Result<Piece, PathFault> {
        let mut stack = stack;
        let Ok(from) = u32::try_from(self.kept) else {
            return Err(PathFault::ManyEntries);
        };
        let height = stack.height;
        let written = self.take_out(&mut stack, height)?;
        for place in written.from..written.from.saturating_add(written.count) {
            let entry = self.entry(place);
            self.set_entry(self.kept, entry);
            self.kept = self.kept.saturating_add(1);
        }
        self.entries.truncate(self.kept);
        Ok(Piece {
            from,
            count: written.count,
        })
    }

    /// Writes an entry in the place of another one.
    fn set_entry(&mut self, place: usize, entry: KindId) {
        if let Some(known) = self.entries.get_mut(place) {
            *known = entry;
        }
    }
}

impl Stack {
    /// `count` entries were taken off, down to this level.
    fn lower(&mut self, top: Level, count: u32) {
        self.top = top;
        self.height = self.height.saturating_sub(count as usize);
        self.lowest = self.lowest.min(self.height);
    }
}

/// That a stack has too few entries, which it hasn't, since a function takes as many as its paths need.
fn missing() -> PathFault {
    PathFault::Refused(KindFault::MissingOperand)
}

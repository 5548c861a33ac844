//! Which kinds are equal.

use crate::fault::PathFault;
use std::alloc::{AllocError, Allocator};
use vcode_base::Kind;

/// The number of a kind: one of a [`Kind`] that is known, or of one that is open.
#[derive(Clone, Copy, PartialEq, Eq)]
pub struct KindId(pub u32);

impl KindId {
    /// How many numbers are those of kinds that are known. They are the least.
    pub(crate) const KNOWN: u32 = 3;

    /// The number of a kind that is known.
    pub(crate) fn of(kind: Kind) -> KindId {
        match kind {
            Kind::Int => KindId(0),
            Kind::Bool => KindId(1),
            Kind::Segdes => KindId(2),
        }
    }

    /// The kind of this number, if it is known; else INT.
    fn kind(self) -> Kind {
        match self {
            KindId(1) => Kind::Bool,
            KindId(2) => Kind::Segdes,
            _ => Kind::Int,
        }
    }

    /// Whether this is the number of a kind that is known.
    pub(crate) fn is_known(self) -> bool {
        self.0 < KindId::KNOWN
    }
}

/// The classes of kinds that are equal, as trees. The root of a tree is the least number of its class, so it is that
/// of a kind that is known, if one is in the class.
#[derive(Drop)]
pub(crate) struct Classes<A: Allocator> {
    parents: Vec<u32, A>,
}

impl<A: Allocator> Classes<A> {
    /// Each of the numbers below `count` is alone in its class.
    pub(crate) fn new(alloc: A, count: u32) -> Result<Classes<A>, AllocError> {
        Ok(Classes {
            parents: (0..count).collect(alloc)?,
        })
    }

    /// Adds numbers of the kinds that are known, in the order of the least numbers. Answers the first.
    pub(crate) fn add_known(&mut self) -> Result<u32, PathFault> {
        let Ok(first) = u32::try_from(self.parents.len()) else {
            return Err(PathFault::ManyEntries);
        };
        self.parents.extend_from_slice(&[0, 1, 2])?;
        Ok(first)
    }

    #[inline]
    fn parent(&self, id: u32) -> u32 {
        match self.parents.get(id as usize) {
            Some(parent) => *parent,
            None => id,
        }
    }

    fn set_parent(&mut self, id: u32, parent: u32) {
        if let Some(known) = self.parents.get_mut(id as usize) {
            *known = parent;
        }
    }

    /// The root of the tree of a number. Each second node on the way then points to the one above its parent.
    fn root(&mut self, id: u32) -> u32 {
        let mut at = id;
        for _ in 0..self.parents.len() {
            let parent = self.parent(at);
            if parent == at {
                break;
            }
            let above = self.parent(parent);
            self.set_parent(at, above);
            at = above;
        }
        at
    }

    /// Whether two kinds may be equal, which they are from now on.
    #[inline]
    pub(crate) fn unify(&mut self, one: KindId, other: KindId) -> bool {
        one == other || self.parent(one.0) == self.parent(other.0) || self.join(one, other)
    }

    /// The same of kinds that aren't known to be equal at the first look.
    fn join(&mut self, one: KindId, other: KindId) -> bool {
        let one = KindId(self.root(one.0));
        let other = KindId(self.root(other.0));
        if one == other {
            return true;
        }
        if one.is_known() && other.is_known() {
            return false;
        }
        self.set_parent(one.0.max(other.0), one.0.min(other.0));
        true
    }

    /// Whether two kinds are known to be equal.
    pub(crate) fn are_equal(&mut self, one: KindId, other: KindId) -> bool {
        let one = self.root(one.0);
        one == self.root(other.0)
    }

    /// Whether a kind is open.
    pub(crate) fn is_open(&mut self, id: KindId) -> bool {
        !KindId(self.root(id.0)).is_known()
    }

    /// The kind of a number, which is INT as long as it is open.
    pub(crate) fn kind(&mut self, id: KindId) -> Kind {
        KindId(self.root(id.0)).kind()
    }
}

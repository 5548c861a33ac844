//! The frames of the active calls.

ghost use Rattle.std.specs.Prelude.{◌≡◌, ◌<◌, ◌≤◌, [], ◌∷◌, length, drop, reverse, slice_get, Some, IfOk};

use crate::bounded_stack::BoundedStack;
use crate::frame::Frame;
use std::alloc::{AllocError, Allocator};
use std::marker::Model;

/// The frames of the active calls, with room for a fixed number. That of the innermost, which each step reads and
/// writes, has a field of its own.
#[derive(Drop)]
pub(crate) struct Calls<A: Allocator> {
    innermost: Frame,
    callers: BoundedStack<Frame, A>,
    /// Whether any call is active.
    active: bool,
}

impl<A: Allocator> Model for Calls<A> {
    ghost use Rattle.std.specs.Prelude.{◌≤◌, length};
    ghost use Rattle.job_steps.specs.declared.frame.Frame.{Frame};
    ghost use Rattle.job_steps.specs.Piles.{PileState, with_callers};

    ghost Value = { PileState Frame };

    ghost view = { λ c. record {
      entries = with_callers c.active c.innermost c.callers.entries;
      room = c.callers.room;
    } };

    ghost invariant = { λ c. length (with_callers c.active c.innermost c.callers.entries) ≤ c.callers.room };
}

impl<A: Allocator> Calls<A> {
    /// One call, which has this frame, and room for `room` in all.
    pub(crate) fn new(alloc: A, room: usize, first: Frame) -> Result<Calls<A>, AllocError>
        requires { 0 < room }
        ensures { IfOk result (λ c. c ≡ record { entries = first ∷ []; room = room }) }
    {
        let callers = BoundedStack::new(alloc, room)?;
        Ok(Calls {
            innermost: first,
            callers,
            active: true,
        })
    }

    /// How many calls are active.
    #[inline(always)]
    pub(crate) fn len(&self) -> usize
        ensures len { result ≡ length self.now.entries }
        ensures within { result ≤ self.now.room }
    {
        if self.active {
            self.callers.len() + 1
        } else {
            0
        }
    }

    /// The frame of the innermost call.
    #[inline(always)]
    pub(crate) fn innermost(&self) -> Frame
        requires { 0 < length self.now.entries }
        ensures { slice_get self.now.entries 0 ≡ Some result }
    {
        self.innermost
    }

    /// The innermost call goes on at this frame.
    #[inline(always)]
    pub(crate) fn go_on_at(&mut self, frame: Frame)
        requires { 0 < length self.old.entries }
        ensures { self.new ≡ record self.old { entries = frame ∷ drop 1 self.old.entries } }
    {
        self.innermost = frame;
    }

    /// The innermost call calls a function, of which this is the first frame.
    #[inline(always)]
    pub(crate) fn enter(&mut self, callee: Frame)
        requires some { 0 < length self.old.entries }
        requires room { length self.old.entries < self.old.room }
        ensures { self.new ≡ record self.old { entries = callee ∷ self.old.entries } }
    {
        self.callers.push(self.innermost);
        self.innermost = callee;
    }

    /// The innermost call returns.
    #[inline(always)]
    pub(crate) fn leave(&mut self)
        requires { 0 < length self.old.entries }
        ensures { self.new ≡ record self.old { entries = drop 1 self.old.entries } }
    {
        if self.callers.len() == 0 {
            self.active = false;
        } else {
            self.innermost = self.callers.at(0);
            self.callers.lower(1);
        }
    }

    /// All of them.
    #[inline(always)]
    pub(crate) fn frames(&self) -> Frames<'_>
        ensures { result ≡ reverse self.now.entries }
    {
        let innermost = if self.active {
            Some(self.innermost)
        } else {
            None
        };
        Frames {
            callers: if self.active {
                self.callers.as_slice()
            } else {
                &[]
            },
            innermost,
        }
    }
}

/// The places at which the active calls go on, that of the innermost last.
#[derive(Drop)]
pub struct Frames<'a> {
    callers: &'a [Frame],
    innermost: Option<Frame>,
}

impl<'a> Model for Frames<'a> {
    ghost use Rattle.std.specs.Prelude.{List, ◌++◌, option_to_list};
    ghost use Rattle.job_steps.specs.declared.frame.Frame.{Frame};

    ghost Value = { List Frame };

    ghost view = { λ f. f.callers.now ++ option_to_list f.innermost };
}

impl<'a> Frames<'a> {
    /// Those of a list, the last of which is that of the innermost call.
    pub fn of(frames: &'a [Frame]) -> Frames<'a>
        ensures { result ≡ frames.now }
    {
        Frames {
            callers: frames,
            innermost: None,
        }
    }

    /// How many there are.
    pub fn len(&self) -> usize
        ensures { result ≡ length self.now }
    {
        self.callers.len() + usize::from(self.innermost.is_some())
    }

    /// That of the call at this place, `MAIN` at 0, if there is one.
    pub fn get(&self, place: usize) -> Option<Frame>
        ensures { result ≡ slice_get self.now place }
    {
        if place == self.callers.len() {
            self.innermost
        } else {
            self.callers.get(place).copied()
        }
    }

    /// That of the innermost call, if any is active.
    #[inline(always)]
    pub fn last(&self) -> Option<Frame>
        ensures { result ≡ slice_get (reverse self.now) 0 }
    {
        self.innermost.or(self.callers.last().copied())
    }

    /// A list of all.
    pub fn copied<A: Allocator>(&self, alloc: A) -> Result<Vec<Frame, A>, AllocError>
        ensures { IfOk result (λ list. list.items ≡ self.now) }
    {
        let mut list = Vec::with_capacity(alloc, self.callers.len() + 1)?;
        list.extend_from_slice(self.callers)?;
        if let Some(frame) = self.innermost {
            list.push(frame)?;
        }
        Ok(list)
    }
}

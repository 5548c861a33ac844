//! The kinds of a function's entries, and those that are kept for its open IFs.

ghost use Rattle.std.specs.Prelude.{◌≡◌, ◌-◌, ◌+◌, ◌≤◌, ◌++◌, [], ◌∷◌, length, take, drop};
ghost use Rattle.std.specs.Prelude.{IfOk, IsTrue, OnOk};
ghost use Rattle.vcode_base.specs.Kinds.{are_same_kinds};
ghost use Rattle.verifier.specs.Walk.{state_after_else, is_kept_last, others_of};

use crate::open_ifs::{OpenIfs, begin_other_part, end_parts};
use kind_list::KindList;
use std::alloc::{AllocError, Allocator};
use std::marker::Model;
use vcode_base::Kind;

/// The entries of a function from the bottom of its stack up, and a list that is kept for each open IF.
///
/// If memory is refused, entries may be lost.
#[derive(Drop)]
pub struct KindStack<A: Allocator> {
    kinds: KindList<A>,
    ifs: OpenIfs<A>,
}

impl<A: Allocator> Model for KindStack<A> {
    ghost use Rattle.verifier.specs.Kept.{kept_lists, AreShared};
    ghost use Rattle.verifier.specs.Walk.{State};

    ghost Value = { State };

    ghost view = { λ s. record { kinds = s.kinds; kept = kept_lists s.kinds s.ifs } };

    ghost invariant = { λ s. AreShared s.kinds s.ifs };
}

impl<A: Allocator + Clone> KindStack<A> {
    /// These entries, and no open IF.
    pub(crate) fn new(alloc: A, kinds: &[Kind]) -> Result<KindStack<A>, AllocError>
        ensures { IfOk result (λ s. s ≡ record { kinds = kinds.now; kept = [] }) }
    {
        Ok(KindStack {
            kinds: KindList::from_slice(alloc.clone()?, kinds)?,
            ifs: OpenIfs::new(alloc),
        })
    }

    /// How many entries there are.
    #[inline(always)]
    pub(crate) fn len(&self) -> usize
        ensures { result ≡ length self.now.kinds }
    {
        self.kinds.len()
    }

    /// Whether these are the entries.
    #[tactic(auto, using(crate::proofs::SameKinds::same_kinds))]
    pub(crate) fn equals(&self, kinds: &[Kind]) -> bool
        ensures { result ≡ are_same_kinds self.now.kinds kinds.now }
    {
        self.kinds.equals(kinds)
    }

    /// Puts entries on top.
    #[tactic(auto, using(crate::proofs::Keeping::on_top))]
    #[inline(always)]
    pub(crate) fn extend(&mut self, kinds: &[Kind]) -> Result<(), AllocError>
        ensures { OnOk result (self.new ≡ record self.old { kinds = self.old.kinds ++ kinds.now }) }
    {
        self.kinds.extend_from_slice(kinds)?;
        Ok(())
    }

    /// Whether the last entries are these. If they are, others take their place.
    #[tactic(auto, using(crate::proofs::SameKinds::same_kinds))]
    #[inline(always)]
    pub(crate) fn replace_end(
        &mut self,
        kinds: &[Kind],
        others: &[Kind],
    ) -> Result<bool, AllocError>
        ensures same { IfOk result (λ same. same ≡
            are_same_kinds (drop (length self.old.kinds - length kinds.now) self.old.kinds) kinds.now) }
        ensures replaced { IfOk result (λ same. IsTrue same → self.new ≡ record self.old {
          kinds = take (length self.old.kinds - length kinds.now) self.old.kinds ++ others.now;
        }) }
    {
        let below = self.kinds.len().saturating_sub(kinds.len());
        self.ifs.take_over_above(below, &self.kinds)?;
        self.kinds.replace_end(kinds, others)
    }

    /// Puts `count` entries, from this place on, on top once more.
    #[tactic(auto, using(crate::proofs::Keeping::on_top))]
    #[inline(always)]
    pub(crate) fn repeat(&mut self, from: usize, count: usize) -> Result<(), AllocError>
        requires { from + count ≤ length self.old.kinds }
        ensures { OnOk result (self.new
            ≡ record self.old { kinds = self.old.kinds ++ take count (drop from self.old.kinds) }) }
    {
        self.kinds.repeat_range(from, count)?;
        Ok(())
    }

    /// Moves `count` entries, from this place on, to the top.
    #[inline(always)]
    pub(crate) fn lift(&mut self, from: usize, count: usize) -> Result<(), AllocError>
        requires { from + count ≤ length self.old.kinds }
        ensures { OnOk result (self.new ≡ record self.old {
          kinds = take from self.old.kinds
              ++ (drop count (drop from self.old.kinds) ++ take count (drop from self.old.kinds));
        }) }
    {
        self.ifs.take_over_above(from, &self.kinds)?;
        self.kinds.move_to_end(from, count)?;
        Ok(())
    }

    /// Takes out `count` entries, from this place on.
    #[inline(always)]
    pub(crate) fn remove(&mut self, from: usize, count: usize) -> Result<(), AllocError>
        requires { from + count ≤ length self.old.kinds }
        ensures { OnOk result (self.new
            ≡ record self.old { kinds = take from self.old.kinds ++ drop (from + count) self.old.kinds }) }
    {
        self.ifs.take_over_above(from, &self.kinds)?;
        self.kinds.remove_range(from, count)?;
        Ok(())
    }

    /// Keeps the entries for an IF that begins.
    #[inline(never)]
    pub(crate) fn keep(&mut self) -> Result<(), AllocError>
        ensures { OnOk result (self.new ≡ record self.old { kept = self.old.kinds ∷ self.old.kept }) }
    {
        self.ifs.begin(&self.kinds)
    }

    /// The entries, and those that were kept last, change places.
    #[inline(never)]
    pub(crate) fn swap(&mut self) -> Result<(), AllocError>
        ensures { OnOk result (self.new ≡ state_after_else self.old.kinds self.old.kept) }
    {
        let Some(innermost) = self.ifs.pop() else {
            return Ok(());
        };
        match begin_other_part(&mut self.kinds, innermost, &mut self.ifs) {
            Ok(()) => Ok(()),
            Err(refused) => {
                self.ifs.clear();
                Err(refused)
            }
        }
    }

    /// Forgets the entries that were kept last, and reports whether they are those that there are.
    #[tactic(auto, using(crate::proofs::SameKinds::same_kinds))]
    #[inline(never)]
    pub(crate) fn forget(&mut self) -> Result<bool, AllocError>
        ensures same { IfOk result (λ same. same ≡ is_kept_last self.old.kinds self.old.kept) }
        ensures rest { IfOk result (λ same. IsTrue same
            → self.new ≡ record self.old { kept = others_of self.old.kept }) }
    {
        let Some(innermost) = self.ifs.pop() else {
            return Ok(true);
        };
        match end_parts(&mut self.kinds, innermost, &mut self.ifs) {
            Ok(same) => Ok(same),
            Err(refused) => {
                self.ifs.clear();
                Err(refused)
            }
        }
    }
}

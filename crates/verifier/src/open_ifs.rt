//! The lists that are kept for open IFs.
//!
//! Nothing is copied when an IF begins: the list with which it began shares its entries with the stack, and takes over
//! those that the stack loses while the IF is open. An IF outside shares entries of that list in turn, so that one copy
//! of an entry is kept for all open IFs. What the first part of an IF ends with shares entries with the list with which
//! the IF began.

ghost use Rattle.std.specs.Prelude.{◌≡◌, ◌+◌, ◌<◌, ◌≤◌, ◌↔◌, [], ◌∷◌, length, drop};
ghost use Rattle.std.specs.Prelude.{IfOk, IsTrue, OnOk, OnErr, MatchOption};
ghost use Rattle.verifier.specs.Kept.{whole_list, begin_list, kept_list, kept_lists, AreShared, SharesAtMost};

use kind_list::{FrontList, KindList};
use std::alloc::{AllocError, Allocator};
use std::marker::Model;

/// As many entries are taken over at once: the kinds of a word.
const CHUNK: usize = 32;

/// The list with which an IF began. It grows at its front as it takes over entries that it shares.
#[derive(Drop)]
struct BeginList<A: Allocator> {
    /// A multiple of `CHUNK`.
    shared: usize,
    above: FrontList<A>,
}

impl<A: Allocator> Model for BeginList<A> {
    ghost use Rattle.std.specs.Prelude.{◌≡◌, ◌%◌};
    ghost use Rattle.verifier.specs.Kept.{SharedList};

    ghost Value = { SharedList };

    ghost view = { λ l. record { shared = l.shared; above = l.above } };

    ghost invariant = { λ l. l.shared % 32 ≡ 0 };
}

impl<A: Allocator + Clone> BeginList<A> {
    /// These entries, all of which are shared but those that fill no word.
    fn new(kinds: &KindList<A>) -> Result<BeginList<A>, AllocError>
        ensures whole { IfOk result (λ list. whole_list kinds.now list ≡ kinds.now) }
        ensures within { IfOk result (λ list. list.shared ≤ length kinds.now) }
    {
        let rest = kinds.len() % CHUNK;
        let above = FrontList::new(kinds.allocator().clone()?, kinds.last_chunk(rest));
        Ok(BeginList {
            shared: kinds.len() - rest,
            above,
        })
    }

    /// How many entries the list shares.
    #[inline(always)]
    fn shared(&self) -> usize
        ensures { result ≡ self.now.shared }
    {
        self.shared
    }

    /// Takes over the last of the entries that it shares with these.
    fn take_over(&mut self, kinds: &KindList<A>) -> Result<(), AllocError>
        requires some { 0 < self.old.shared }
        requires within { self.old.shared ≤ length kinds.now }
        ensures same { whole_list kinds.now self.new ≡ whole_list kinds.now self.old }
        ensures fewer { OnOk result (self.new.shared < self.old.shared) }
        ensures unchanged { OnErr result (self.new ≡ self.old) }
    {
        let shared = self.shared - CHUNK;
        self.above.prepend(&kinds.chunk(shared, CHUNK))?;
        self.shared = shared;
        Ok(())
    }

    /// Takes over entries that it shares with these, until it shares at most the first `len`.
    fn take_over_above(&mut self, len: usize, kinds: &KindList<A>) -> Result<(), AllocError>
        requires { self.old.shared ≤ length kinds.now }
        ensures same { whole_list kinds.now self.new ≡ whole_list kinds.now self.old }
        ensures fewer { self.new.shared ≤ self.old.shared }
        ensures below { OnOk result (self.new.shared ≤ len) }
    {
        while self.shared() > len {
            self.take_over(kinds)?;
        }
        Ok(())
    }

    /// Makes its entries of those that share with it.
    fn restore(self, kinds: &mut KindList<A>) -> Result<(), AllocError>
        ensures { OnOk result (kinds.new ≡ whole_list kinds.old self) }
    {
        kinds.truncate(self.shared);
        self.above.append_to(kinds)
    }
}

/// What a part of an IF ends with: how many of the lowest entries are those of the list with which the IF began, and
/// the entries above them.
#[derive(Drop)]
struct EndList<A: Allocator> {
    shared: usize,
    above: KindList<A>,
}

impl<A: Allocator> Model for EndList<A> {
    ghost use Rattle.verifier.specs.Kept.{SharedList};

    ghost Value = { SharedList };

    ghost view = { λ l. record { shared = l.shared; above = l.above } };
}

impl<A: Allocator + Clone> EndList<A> {
    /// These entries, of which the first are shared.
    fn new(kinds: &KindList<A>, shared: usize) -> Result<EndList<A>, AllocError>
        requires { shared ≤ length kinds.now }
        ensures { IfOk result (λ list. list ≡ record { shared = shared; above = drop shared kinds.now }) }
    {
        let mut above = KindList::new(kinds.allocator().clone()?);
        above.append_range(kinds, shared, kinds.len() - shared)?;
        Ok(EndList { shared, above })
    }

    /// How many entries the list shares.
    #[inline(always)]
    fn shared(&self) -> usize
        ensures { result ≡ self.now.shared }
    {
        self.shared
    }

    /// Makes its entries of those of the list with which the IF began.
    fn restore(&self, kinds: &mut KindList<A>) -> Result<(), AllocError>
        ensures { OnOk result (kinds.new ≡ whole_list kinds.old self.now) }
    {
        kinds.truncate(self.shared);
        kinds.append_range(&self.above, 0, self.above.len())
    }

    /// Whether these entries, the lowest of which are shared, are those of the list.
    fn is_end_of(&self, kinds: &KindList<A>) -> bool
        requires { self.now.shared ≤ length kinds.now }
        ensures { IsTrue result ↔ (drop self.now.shared kinds.now ≡ self.now.above) }
    {
        kinds.ends_with_list(self.shared, &self.above)
    }
}

/// An open IF.
#[derive(Drop)]
pub(crate) struct OpenIf<A: Allocator> {
    begin: BeginList<A>,
    /// The entries with which the other part begins, or with which the first part ended.
    kept: EndList<A>,
}

impl<A: Allocator> Model for OpenIf<A> {
    ghost use Rattle.verifier.specs.Kept.{OpenIf as OpenIfOf};

    ghost Value = { OpenIfOf };

    ghost view = { λ o. record { begin = o.begin; kept = o.kept } };
}

impl<A: Allocator + Clone> OpenIf<A> {
    /// An IF that begins with these entries, for which this list is kept.
    fn new(kinds: &KindList<A>, kept: EndList<A>) -> Result<OpenIf<A>, AllocError>
        ensures begin { IfOk result (λ o. begin_list kinds.now o ≡ kinds.now) }
        ensures kept { IfOk result (λ o. o.kept ≡ kept) }
        ensures within { IfOk result (λ o. o.begin.shared ≤ length kinds.now) }
    {
        Ok(OpenIf {
            begin: BeginList::new(kinds)?,
            kept,
        })
    }

    /// How many entries the list with which it began shares.
    #[inline(always)]
    fn shared(&self) -> usize
        ensures { result ≡ self.now.begin.shared }
    {
        self.begin.shared()
    }

    /// How many entries of it the list that is kept shares.
    fn kept_shared(&self) -> usize
        ensures { result ≡ self.now.kept.shared }
    {
        self.kept.shared()
    }

    /// Whether these entries, the lowest of which are shared, are those of the list that is kept.
    fn keeps_end_of(&self, kinds: &KindList<A>) -> bool
        requires { self.now.kept.shared ≤ length kinds.now }
        ensures { IsTrue result ↔ (drop self.now.kept.shared kinds.now ≡ self.now.kept.above) }
    {
        self.kept.is_end_of(kinds)
    }

    /// The list with which it began, and the one that is kept.
    fn into_lists(self) -> (BeginList<A>, EndList<A>)
        ensures { result ≡ (self.begin, self.kept) }
    {
        (self.begin, self.kept)
    }

    /// The list with which it began takes over entries above the first `len` that it shares with these.
    fn take_over_above(&mut self, len: usize, kinds: &KindList<A>) -> Result<(), AllocError>
        requires { self.old.begin.shared ≤ length kinds.now }
        ensures same { begin_list kinds.now self.new ≡ begin_list kinds.now self.old }
        ensures kept { self.new.kept ≡ self.old.kept }
        ensures fewer { self.new.begin.shared ≤ self.old.begin.shared }
        ensures below { OnOk result (self.new.begin.shared ≤ len) }
    {
        self.begin.take_over_above(len, kinds)
    }
}

/// The open IFs, the innermost first.
#[derive(Drop)]
pub(crate) struct OpenIfs<A: Allocator> {
    ifs: Vec<OpenIf<A>, A>,
}

impl<A: Allocator> Model for OpenIfs<A> {
    ghost use Rattle.std.specs.Prelude.{List, reverse};
    ghost use Rattle.verifier.specs.Kept.{OpenIf as OpenIfOf};

    ghost Value = { List OpenIfOf };

    ghost view = { λ s. reverse s.ifs.items };
}

impl<A: Allocator + Clone> OpenIfs<A> {
    /// No IF.
    pub(crate) fn new(alloc: A) -> OpenIfs<A>
        ensures { result ≡ [] }
    {
        OpenIfs {
            ifs: Vec::new(alloc),
        }
    }

    /// Adds an IF inside the others.
    fn push(&mut self, innermost: OpenIf<A>) -> Result<(), AllocError>
        ensures pushed { OnOk result (self.new ≡ innermost ∷ self.old) }
        ensures unchanged { OnErr result (self.new ≡ self.old) }
    {
        self.ifs.push(innermost)?;
        Ok(())
    }

    /// Takes the innermost IF.
    pub(crate) fn pop(&mut self) -> Option<OpenIf<A>>
        ensures { MatchOption result ((self.old ≡ []) × (self.new ≡ [])) (λ o. self.old ≡ o ∷ self.new) }
    {
        self.ifs.pop()
    }

    /// Drops all IFs.
    pub(crate) fn clear(&mut self)
        ensures { self.new ≡ [] }
    {
        self.ifs.clear();
    }

    /// Whether the innermost IF, if there is one, shares at most `count` entries.
    #[inline(always)]
    fn shares_at_most(&self, count: usize) -> bool
        ensures { IsTrue result ↔ SharesAtMost count self.now }
    {
        match self.ifs.as_slice() {
            [.., innermost] => innermost.shared() <= count,
            [] => true,
        }
    }

    /// The innermost IF takes over the entries above the first `len` that it shares with these entries.
    #[inline(always)]
    pub(crate) fn take_over_above(
        &mut self,
        len: usize,
        kinds: &KindList<A>,
    ) -> Result<(), AllocError>
        requires { AreShared kinds.now self.old }
        ensures same { kept_lists kinds.now self.new ≡ kept_lists kinds.now self.old }
        ensures shared { AreShared kinds.now self.new }
        ensures below { OnOk result (SharesAtMost len self.new) }
    {
        if self.shares_at_most(len) {
            Ok(())
        } else {
            self.take_over_shared(len, kinds)
        }
    }

    /// The same, if it shares some of them. Most lines of a code change none that is shared.
    #[inline(never)]
    fn take_over_shared(&mut self, len: usize, kinds: &KindList<A>) -> Result<(), AllocError>
        requires { AreShared kinds.now self.old }
        ensures same { kept_lists kinds.now self.new ≡ kept_lists kinds.now self.old }
        ensures shared { AreShared kinds.now self.new }
        ensures below { OnOk result (SharesAtMost len self.new) }
    {
        let Some(mut innermost) = self.ifs.pop() else {
            return Ok(());
        };
        let taken = innermost.take_over_above(len, kinds);
        self.ifs.push_reserved(innermost);
        taken
    }

    /// An IF begins with these entries.
    pub(crate) fn begin(&mut self, kinds: &KindList<A>) -> Result<(), AllocError>
        requires { AreShared kinds.now self.old }
        ensures kept { OnOk result (kept_lists kinds.now self.new ≡ kinds.now ∷ kept_lists kinds.now self.old) }
        ensures shared { AreShared kinds.now self.new }
    {
        let kept = EndList::new(kinds, kinds.len())?;
        let innermost = OpenIf::new(kinds, kept)?;
        self.push(innermost)
    }
}

/// These entries, which are those of the list with which an IF began, become those of what one of its parts ends with.
fn go_to<A: Allocator + Clone>(
    kinds: &mut KindList<A>,
    end: &EndList<A>,
    ifs: &mut OpenIfs<A>,
) -> Result<(), AllocError>
    requires { AreShared kinds.old ifs.old }
    ensures kinds { OnOk result (kinds.new ≡ whole_list kinds.old end.now) }
    ensures kept { OnOk result (kept_lists kinds.new ifs.new ≡ kept_lists kinds.old ifs.old) }
    ensures shared { OnOk result (AreShared kinds.new ifs.new) }
{
    ifs.take_over_above(end.shared(), kinds)?;
    end.restore(kinds)?;
    Ok(())
}

/// The entries and those of the list that is kept for the innermost IF change places.
pub(crate) fn begin_other_part<A: Allocator + Clone>(
    kinds: &mut KindList<A>,
    innermost: OpenIf<A>,
    others: &mut OpenIfs<A>,
) -> Result<(), AllocError>
    requires { AreShared kinds.old (innermost ∷ others.old) }
    ensures kinds { OnOk result (kinds.new ≡ kept_list kinds.old innermost) }
    ensures kept { OnOk result (kept_lists kinds.new others.new
        ≡ kinds.old ∷ kept_lists (begin_list kinds.old innermost) others.old) }
    ensures shared { OnOk result (AreShared kinds.new others.new) }
{
    let (begin, kept) = innermost.into_lists();
    let end = EndList::new(kinds, begin.shared())?;
    begin.restore(kinds)?;
    others.push(OpenIf::new(kinds, end)?)?;
    go_to(kinds, &kept, others)?;
    Ok(())
}

/// Ends the innermost IF, and reports whether the entries are those of the list that is kept for it.
pub(crate) fn end_parts<A: Allocator + Clone>(
    kinds: &mut KindList<A>,
    innermost: OpenIf<A>,
    others: &mut OpenIfs<A>,
) -> Result<bool, AllocError>
    requires { AreShared kinds.old (innermost ∷ others.old) }
    ensures same { IfOk result (λ same. IsTrue same ↔ (kept_list kinds.old innermost ≡ kinds.old)) }
    ensures kinds { IfOk result (λ same. IsTrue same → kinds.new ≡ kinds.old) }
    ensures kept { OnOk result (kept_lists kinds.new others.new
        ≡ kept_lists (begin_list kinds.old innermost) others.old) }
    ensures shared { OnOk result (AreShared kinds.new others.new) }
{
    let shared = innermost.shared();
    if innermost.kept_shared() <= shared && others.shares_at_most(shared) {
        Ok(innermost.keeps_end_of(kinds))
    } else {
        restore_part(kinds, innermost, others)
    }
}

/// The same, if the first part changed fewer entries than the second, or an IF outside shares entries that both
/// changed.
///
/// Both lists are the same if there is no fault. The stack takes the list that shares more entries with the one with
/// which the IF began, so that IFs outside take over fewer entries.
#[inline(never)]
fn restore_part<A: Allocator + Clone>(
    kinds: &mut KindList<A>,
    innermost: OpenIf<A>,
    others: &mut OpenIfs<A>,
) -> Result<bool, AllocError>
    requires { AreShared kinds.old (innermost ∷ others.old) }
    ensures same { IfOk result (λ same. IsTrue same ↔ (kept_list kinds.old innermost ≡ kinds.old)) }
    ensures kinds { IfOk result (λ same. IsTrue same → kinds.new ≡ kinds.old) }
    ensures kept { OnOk result (kept_lists kinds.new others.new
        ≡ kept_lists (begin_list kinds.old innermost) others.old) }
    ensures shared { OnOk result (AreShared kinds.new others.new) }
{
    let (begin, kept) = innermost.into_lists();
    let end = EndList::new(kinds, begin.shared())?;
    begin.restore(kinds)?;
    if kept.shared() <= end.shared() {
        go_to(kinds, &end, others)?;
        Ok(kept.is_end_of(kinds))
    } else {
        go_to(kinds, &kept, others)?;
        Ok(end.is_end_of(kinds))
    }
}

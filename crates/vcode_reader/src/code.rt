//! The lines of a function that is being read, with its open IFs.

ghost use Rattle.std.specs.Prelude.{◌≡◌, ◌++◌, [], ◌∷◌, true, false, length, IfOk, OnOk, OnErr, IsErr};
ghost use Rattle.vcode_reader.specs.Trees.{line_of};
ghost use Rattle.vcode_reader.specs.Drafts.{no_lines, with_item, with_if, with_else, lines_after_endif, with_endif};
ghost use Rattle.vcode_reader.specs.Drafts.{takes_else, is_open, innermost_line};
ghost use Rattle.vcode_reader.specs.Decode.{AreBodyLines};
ghost use Rattle.vcode_reader.specs.Room.{FitsDraft, FitsPools};

use crate::code_lines::GrowingLines;
use crate::front_list::FrontList;
use crate::line::{CodeItem, Numbered};
use crate::place::OpenIf;
use std::alloc::{AllocError, Allocator};
use std::marker::Model;
use vcode_base::Instruction;

/// The lines of a body that is being read, with its open IFs.
#[derive(Drop)]
pub struct Draft<A: Allocator> {
    lines: GrowingLines<A>,
    ifs: FrontList<OpenIf, A>,
}

impl<A: Allocator> Model for Draft<A> {
    ghost use Rattle.vcode_reader.specs.Drafts.{DraftState, draft_code, IsDraft};
    ghost use Rattle.std.specs.Coded.{codes};

    ghost Value = { DraftState };

    ghost coded = { draft_code (Prim.hlevel codes) (Prim.hlevel codes) };

    ghost view = { λ d. record { lines = d.lines; ifs = d.ifs } };

    ghost invariant = { λ d. IsDraft d.ifs d.lines };
}

impl<A: Allocator + Clone> Draft<A> {
    /// No line.
    #[tactic(auto, using(crate::proofs::Drafting::empty_draft))]
    pub(crate) fn new(alloc: A) -> Result<Draft<A>, AllocError>
        ensures { IfOk result (λ d. d ≡ no_lines) }
    {
        Ok(Draft {
            lines: GrowingLines::new(alloc.clone()?)?,
            ifs: FrontList::new(alloc),
        })
    }
}

impl<A: Allocator> Draft<A> {
    /// Adds an instruction, which is on this line.
    #[inline(always)]
    #[tactic(auto, using(crate::proofs::Drafting::item_draft))]
    pub(crate) fn push(&mut self, instruction: Instruction<'_>, line: u64) -> Result<(), AllocError>
        requires { FitsDraft (with_item instruction line self.old) }
        ensures { OnOk result (self.new ≡ with_item instruction.entry line self.old) }
    {
        self.lines.push(Numbered {
            item: CodeItem::Do(instruction),
            number: line,
        })?;
        Ok(())
    }

    /// An IF begins on this line.
    #[tactic(auto, using(crate::proofs::Earlier::draft_steps))]
    pub(crate) fn begin_if(&mut self, line: u64) -> Result<(), AllocError>
        requires { FitsDraft (with_if line self.old) }
        ensures { OnOk result (self.new ≡ with_if line self.old) }
    {
        let open = OpenIf {
            line,
            has_else: false,
        };
        add_open(&mut self.lines, &mut self.ifs, CodeItem::If, open)?;
        Ok(())
    }

    /// Has the innermost IF no `ELSE` yet?
    pub(crate) fn takes_else(&self) -> bool
        ensures { result ≡ takes_else self.now.ifs }
    {
        match self.ifs.first() {
            None => false,
            Some(open) => !open.has_else,
        }
    }

    /// How many IFs are open.
    pub(crate) fn depth(&self) -> usize
        ensures { result ≡ length self.now.ifs }
    {
        self.ifs.len()
    }

    /// Is an IF open?
    pub(crate) fn is_open(&self) -> bool
        ensures { result ≡ is_open self.now.ifs }
    {
        self.ifs.first().is_some()
    }

    /// The line of the innermost open IF, or else this one.
    pub(crate) fn innermost_line(&self, line: u64) -> u64
        ensures { result ≡ innermost_line self.now.ifs line }
    {
        match self.ifs.first() {
            None => line,
            Some(open) => open.line,
        }
    }

    /// The `ELSE` of the innermost IF.
    #[tactic(auto, using(crate::proofs::Earlier::draft_steps))]
    pub(crate) fn begin_else(&mut self) -> Result<(), AllocError>
        requires takes_else { takes_else self.old.ifs ≡ true }
        requires fits { FitsDraft (with_else self.old) }
        ensures { OnOk result (self.new ≡ with_else self.old) }
    {
        if let Some(opened) = self.ifs.pop() {
            let passed = OpenIf {
                line: opened.line,
                has_else: true,
            };
            add_open(&mut self.lines, &mut self.ifs, CodeItem::Else, passed)?;
        }
        Ok(())
    }

    /// The `ENDIF` of the innermost IF is on this line. An IF that has no `ELSE` gets one.
    #[tactic(auto, using(crate::proofs::Earlier::draft_steps))]
    pub(crate) fn end_if(&mut self, line: u64) -> Result<(), AllocError>
        requires { FitsDraft (with_endif line self.old) }
        ensures { OnOk result (self.new ≡ with_endif line self.old) }
    {
        if let Some(opened) = self.ifs.pop() {
            close(&mut self.lines, &mut self.ifs, opened, line)?;
        }
        Ok(())
    }

    /// The lines.
    #[tactic(auto, using(crate::proofs::Drafting::whole_draft))]
    pub(crate) fn into_lines(self) -> GrowingLines<A>
        ensures same { result ≡ self.lines }
        ensures body { is_open self.ifs ≡ false → AreBodyLines result }
    {
        let Draft { lines, ifs: _ } = self;
        lines
    }
}

/// After a refusal of memory: no line and no open IF.
fn give_up<A: Allocator>(
    lines: &mut GrowingLines<A>,
    ifs: &mut FrontList<OpenIf, A>,
) -> Result<(), AllocError>
    ensures err { IsErr result }
    ensures lines { lines.new ≡ [] }
    ensures ifs { ifs.new ≡ [] }
{
    lines.clear();
    ifs.clear();
    Err(AllocError)
}

/// One open IF more, and this item on its line.
fn add_open<A: Allocator>(
    lines: &mut GrowingLines<A>,
    ifs: &mut FrontList<OpenIf, A>,
    item: CodeItem<Instruction<'_>>,
    opened: OpenIf,
) -> Result<(), AllocError>
    requires { FitsPools (lines.old ++ line_of item opened.line ∷ []) }
    ensures lines { OnOk result (lines.new ≡ lines.old ++ line_of item.entry opened.line ∷ []) }
    ensures ifs { OnOk result (ifs.new ≡ opened ∷ ifs.old) }
    ensures no_lines { OnErr result (lines.new ≡ []) }
    ensures no_ifs { OnErr result (ifs.new ≡ []) }
{
    let line = Numbered {
        item,
        number: opened.line,
    };
    if ifs.push(opened).is_err() || lines.push(line).is_err() {
        return give_up(lines, ifs);
    }
    Ok(())
}

/// The `ENDIF` of an IF that was taken off, after an `ELSE` if the IF has none.
fn close<A: Allocator>(
    lines: &mut GrowingLines<A>,
    ifs: &mut FrontList<OpenIf, A>,
    opened: OpenIf,
    line: u64,
) -> Result<(), AllocError>
    requires { FitsPools (lines_after_endif opened line lines.old) }
    ensures lines { OnOk result (lines.new ≡ lines_after_endif opened line lines.old) }
    ensures ifs { OnOk result (ifs.new ≡ ifs.old) }
    ensures no_lines { OnErr result (lines.new ≡ []) }
    ensures no_ifs { OnErr result (ifs.new ≡ []) }
{
    let between = Numbered {
        item: CodeItem::Else,
        number: opened.line,
    };
    let last = Numbered {
        item: CodeItem::Endif,
        number: line,
    };
    if !opened.has_else && lines.push(between).is_err() {
        return give_up(lines, ifs);
    }
    if lines.push(last).is_err() {
        return give_up(lines, ifs);
    }
    Ok(())
}

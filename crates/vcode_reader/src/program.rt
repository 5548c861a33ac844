ghost use Rattle.std.specs.Prelude.{◌≡◌, ◌<◌, ◌≤◌, [], ◌∷◌, ◌++◌, false, length, option_map, IfOk, IfSome, position};
ghost use Rattle.std.specs.List.{slice_get};
ghost use Rattle.std.specs.Str.{bytes_eq};
ghost use Rattle.vcode_base.specs.declared.instr.Instr.TheVariants.{Return};
ghost use Rattle.vcode_base.specs.declared.limits.TheConstants.{MOST_FUNCTIONS};
ghost use Rattle.vcode_reader.specs.Callees.{callee_at, called_by};
ghost use Rattle.vcode_reader.specs.Targets.{target_at};
ghost use Rattle.vcode_reader.specs.Trees.{body_lines, instruction_line, lines_of, HaveProperBodies};
ghost use Rattle.vcode_reader.specs.Decode.{tree_of};
ghost use Rattle.vcode_reader.specs.Drafts.{is_open};
ghost use Rattle.vcode_reader.specs.Room.{FitsPools};

use crate::code::Draft;
use crate::code_lines::CodeLines;
use crate::line::{CodeItem, CodeLine, Numbered};
use crate::link::callees_of;
use std::alloc::{AllocError, Allocator};
use std::marker::Model;
use vcode_base::{FunctionName, Instr, Sequence};

/// A function of a program: its name, the line of its `FUNC`, and its items up to its `RET`, each
/// with its line.
#[derive(Drop)]
#[derive_where(PartialEq, Eq)]
pub struct Function<A: Allocator> {
    name: FunctionName<A>,
    begun: u64,
    lines: CodeLines<A>,
}

impl<A: Allocator> Model for Function<A> {
    ghost use Rattle.vcode_reader.specs.Trees.{Function as FunctionTree};

    ghost Value = { FunctionTree };

    ghost use Rattle.std.specs.Prelude.{List, ◌≡◌};
    ghost use Rattle.std.specs.Coded.{codes};
    ghost use Rattle.std.proofs.Common.{ap};
    ghost use Rattle.vcode_reader.specs.Trees.{CodeLine, lines_of};
    ghost use Rattle.vcode_reader.specs.Decode.{AreLines, function_of, function_code};

    ghost coded = { function_code (Prim.hlevel codes) };

    ghost view = { λ f. function_of f.name f.begun f.lines };

    ghost invariant = { λ f. AreLines f.name f.begun f.lines };

    ghost inverse = { λ f. record { name = f.name; begun = f.line; lines = lines_of f } };

    ghost inverse_ok = { λ f h. ap (λ (ls : List CodeLine). record f { lines = ls }) h };
}

impl<A: Allocator> Function<A> {
    /// The function of these lines and a `RET` at line `ret` after them.
    #[tactic(auto, using(crate::proofs::Earlier::function_lines))]
    pub(crate) fn new(
        alloc: A,
        name: FunctionName<A>,
        line: u64,
        draft: Draft<A>,
        ret: u64,
    ) -> Result<Function<A>, AllocError>
        requires closed { is_open draft.ifs ≡ false }
        requires fits { FitsPools (body_lines (tree_of draft.lines) ++ instruction_line Return ret ∷ []) }
        ensures { IfOk result (λ f. f ≡ record { name = name; line = line; body = tree_of draft.lines; ret = ret }) }
    {
        let mut lines = draft.into_lines();
        lines.push(Numbered {
            item: CodeItem::Do(Instr::Return),
            number: ret,
        })?;
        let lines = lines.into_lines(alloc)?;
        Ok(Function {
            name,
            begun: line,
            lines,
        })
    }

    /// The bytes of its name.
    pub fn name(&self) -> &[u8]
        ensures { result.now ≡ self.now.name }
    {
        self.name.as_slice()
    }

    /// The line of its `FUNC`.
    pub fn line(&self) -> u64
        ensures { result ≡ self.now.line }
    {
        self.begun
    }

    /// How many lines it has. The last is its `RET`.
    pub fn line_count(&self) -> usize
        ensures { result ≡ length (lines_of self.now) }
    {
        self.lines.len()
    }

    /// The line at a place in the order of the text, counted from 0, if there is one.
    #[inline(always)]
    pub fn item(&self, place: usize) -> Option<CodeLine<'_>>
        ensures { result ≡ slice_get (lines_of self.now) place }
    {
        self.lines.get(place)
    }

    /// The name that the line at a place calls, if it is a `CALL`.
    #[inline(always)]
    pub(crate) fn called(&self, place: usize) -> Option<&[u8]>
        requires { place < length (lines_of self.now) }
        ensures { IfSome (slice_get (lines_of self.now) place)
            (λ x. option_map (λ name. name.now) result ≡ called_by x.item) }
    {
        self.lines.called(place)
    }

    /// The target of the line at a place, if that isn't the next line: an IF without its first part goes on
    /// after its ELSE, and an ELSE after its ENDIF. None at any other place.
    pub fn target(&self, place: usize) -> Option<usize>
        ensures { result ≡ target_at (lines_of self.now) place }
    {
        self.lines.target(place)
    }
}

/// A program: the number of its first line, and its functions in the order of the text. A callee past the last
/// function stands for none.
#[derive(Drop)]
#[derive_where(PartialEq, Eq)]
pub struct Program<A: Allocator> {
    first_line: u64,
    functions: Sequence<Function<A>, A>,
    callees: Sequence<Sequence<u16, A>, A>,
}

impl<A: Allocator> Model for Program<A> {
    ghost use Rattle.vcode_reader.specs.Trees.{Program as ProgramTree};

    ghost Value = { ProgramTree };

    ghost use Rattle.std.specs.Coded.{codes};
    ghost use Rattle.std.specs.Prelude.{ℕ, List, ◌≡◌};
    ghost use Rattle.std.proofs.Common.{ap, sym};
    ghost use Rattle.vcode_reader.specs.Decode.{program_code};
    ghost use Rattle.vcode_reader.specs.Programs.{held_callees, HoldsProgram};

    ghost coded = { program_code (Prim.hlevel codes) };

    ghost view = { λ p. record { first_line = p.first_line; functions = p.functions } };

    ghost invariant = { λ p. HoldsProgram p.functions p.callees };

    ghost inverse = { λ p. record {
      first_line = p.first_line;
      functions = p.functions;
      callees = held_callees p.functions;
    } };

    ghost inverse_ok = { λ p h. ap (λ (cs : List (List ℕ)). record p { callees = cs }) (sym h.callees) };
}

impl<A: Allocator> Program<A> {
    /// The program of these functions. Each CALL is found here.
    pub(crate) fn new(
        first_line: u64,
        functions: Vec<Function<A>, A>,
    ) -> Result<Program<A>, AllocError>
    where
        A: Clone,
        requires proper_bodies { HaveProperBodies functions.items }
        requires few { length functions.items ≤ MOST_FUNCTIONS }
        ensures { IfOk result (λ p. p ≡ record { first_line = first_line; functions = functions.items }) }
    {
        let callees = callees_of(functions.allocator().clone()?, functions.as_slice())?;
        Ok(Program {
            first_line,
            functions: Sequence::from_vec(functions),
            callees: Sequence::from_vec(callees),
        })
    }

    /// The number of its first line.
    pub fn first_line(&self) -> u64
        ensures { result ≡ self.now.first_line }
    {
        self.first_line
    }

    /// Its functions in the order of the text.
    pub fn functions(&self) -> &[Function<A>]
        ensures functions { result.now ≡ self.now.functions }
        // The body of none holds a RET or an instruction IF, and the list of each CONST is of its kind.
        ensures proper_bodies { HaveProperBodies self.now.functions }
    {
        self.functions.as_slice()
    }

    /// The place of the first function of this name, counted from 0.
    pub fn position(&self, name: &[u8]) -> Option<usize>
        ensures { result ≡ position (λ f. bytes_eq f.name name.now) self.now.functions }
    {
        self.functions
            .as_slice()
            .iter()
            .position(|f| f.name() == name)
    }

    /// The place, among the program's functions, of the function that the CALL at this place of that
    /// function names: of the first, if several have the name. None if no function has the name,
    /// at any line but a CALL, and if there is no such line.
    #[tactic(auto, using(crate::proofs::Pooling::not_got, crate::proofs::Callees::no_function))]
    pub fn callee(&self, function: usize, place: usize) -> Option<usize>
        ensures { result ≡ callee_at self.now.functions function place }
    {
        let callees = self.callees.as_slice().get(function)?;
        let callee = usize::from(*callees.as_slice().get(place)?);
        (callee < self.functions.len()).then_some(callee)
    }
}

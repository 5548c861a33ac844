//! What was expected where kinds don't fit.

use crate::kind_walk::{Clash, Misfit, NO_NAMES, StackEntry, Wanted, misfit_of};
use crate::kinds::kind_text;
use crate::lines::{Lines, printable};
use crate::parts::Parts;
use crate::text_notes::program_of;
use signatures::Signatures;
use std::alloc::{AllocError, Global};
use std::fmt::Write;
use vcode_base::laws::line_feeds_are_few;
use vcode_base::{Kind, TextFault};
use vcode_reader::Program;
use verifier::KindFault;

/// The most entries that are shown.
const MOST_ENTRIES: usize = 24;

/// The most names that are shown.
const MOST_NAMES: usize = 16;

/// The lines of a batch, and the parts of a job there.
#[derive(Clone, Copy)]
struct Source<'a> {
    lines: &'a Lines,
    parts: Parts,
}

/// The signatures of a text, if it has no fault.
fn signatures_of(alloc: Global, text: &[u8]) -> Result<Option<Signatures<Global>>, AllocError> {
    line_feeds_are_few();
    match signatures::read(alloc, text, 1) {
        Ok(signatures) => Ok(Some(signatures)),
        Err(TextFault::At(..)) => Ok(None),
        Err(TextFault::Memory) => Err(AllocError),
    }
}

/// A program and the signatures of a text, if it has no fault.
fn with_signatures(
    alloc: Global,
    program: Program<Global>,
    text: &[u8],
) -> Result<Option<(Program<Global>, Signatures<Global>)>, AllocError> {
    match signatures_of(alloc, text) {
        Ok(Some(signatures)) => Ok(Some((program, signatures))),
        Ok(None) => {
            drop(program);
            Ok(None)
        }
        Err(error) => {
            drop(program);
            Err(error)
        }
    }
}

/// The program and the signatures of a job, which have no faults as texts.
fn read_parts(
    alloc: Global,
    source: Source<'_>,
) -> Result<Option<(Program<Global>, Signatures<Global>)>, AllocError> {
    let Parts {
        job: _,
        signatures,
        code,
    } = source.parts;
    let code = source.lines.between(code.first, code.end);
    let signatures = source.lines.between(signatures.first, signatures.end);
    match program_of(alloc, code)? {
        Some(program) => with_signatures(alloc, program, signatures),
        None => Ok(None),
    }
}

/// What is at this depth of a list from the bottom up, if anything is.
fn at_depth<T: Copy>(list: &[T], depth: usize) -> Option<T> {
    let place = list.len().checked_sub(depth.checked_add(1)?)?;
    list.get(place).copied()
}

/// The word for what is wanted at a place.
fn wanted_word(wanted: Option<Wanted>) -> &'static str {
    match wanted {
        Some(Wanted::Of(kind)) => kind_text(kind),
        Some(Wanted::Any) => "any",
        None => "",
    }
}

/// The kind of an entry, and the line that makes it with its code; or that there is none.
fn made_text(
    alloc: Global,
    source: Source<'_>,
    entry: Option<StackEntry>,
) -> Result<String, AllocError> {
    let Some(entry) = entry else {
        return String::from_str(alloc, "    none\n");
    };
    let kind = kind_text(entry.kind);
    let line = source.parts.code.line(entry.line);
    let code = source.lines.code(alloc, line)?;
    format!(in alloc; "  {kind:>6}  line {line:>6}  {code}\n")
}

/// What the entries of a stack are compared with.
#[derive(Clone, Copy)]
enum Beside<'a> {
    /// The entries that are wanted at its top, from the bottom up, with their names if they have some.
    Operands(&'a [Wanted], &'static [&'static str]),
    /// All entries that are wanted, from the bottom up.
    Results(&'a [Wanted]),
    /// The stack that the other part of an IF leaves.
    Part(&'a [StackEntry]),
}

/// A stack beside what its entries are compared with, a row for each depth.
#[derive(Clone, Copy)]
struct Table<'a> {
    stack: &'a [StackEntry],
    beside: Beside<'a>,
}

/// Whether an entry is there, and as it is wanted.
fn fits(entry: Option<StackEntry>, wanted: Wanted) -> bool {
    match (entry, wanted) {
        (Some(entry), Wanted::Of(kind)) => entry.kind == kind,
        (Some(_), Wanted::Any) => true,
        (None, _) => false,
    }
}

/// Whether another stack has no entry of the kind of the one at a depth of a stack as far above its bottom.
fn is_apart(stack: &[StackEntry], other: &[StackEntry], depth: usize) -> bool {
    let Some(place) = stack.len().checked_sub(depth.saturating_add(1)) else {
        return false;
    };
    match (stack.get(place), other.get(place)) {
        (Some(entry), Some(other)) => entry.kind != other.kind,
        _ => true,
    }
}

impl Table<'_> {
    /// How many rows it has.
    fn len(self) -> usize {
        match self.beside {
            Beside::Operands(wanted, _) | Beside::Results(wanted) => {
                self.stack.len().max(wanted.len())
            }
            Beside::Part(_) => self.stack.len(),
        }
    }

    /// Whether the row for a depth is marked, since the entry differs from what it is compared with.
    fn is_marked(self, depth: usize) -> bool {
        let entry = at_depth(self.stack, depth);
        match self.beside {
            Beside::Operands(wanted, _) => match at_depth(wanted, depth) {
                Some(wanted) => !fits(entry, wanted),
                None => false,
            },
            Beside::Results(wanted) => match at_depth(wanted, depth) {
                Some(wanted) => !fits(entry, wanted),
                None => entry.is_some(),
            },
            Beside::Part(other) => is_apart(self.stack, other, depth),
        }
    }

    /// What the row for a depth begins with, if one of the rows from there up to another depth is marked, or none.
    fn mark(self, depth: usize, end: usize) -> &'static str {
        if (depth..end).any(|depth| self.is_marked(depth)) {
            "*"
        } else {
            " "
        }
    }

    /// What is wanted at a depth, with its name.
    fn wanted_text(self, alloc: Global, depth: usize) -> Result<String, AllocError> {
        let (wanted, names) = match self.beside {
            Beside::Operands(wanted, names) => (wanted, names),
            Beside::Results(wanted) => (wanted, NO_NAMES),
            Beside::Part(_) => return Ok(String::new(alloc)),
        };
        let name = at_depth(names, depth).unwrap_or("");
        let kind = wanted_word(at_depth(wanted, depth));
        format!(in alloc; "  {name:>7}  {kind:>6}")
    }

    /// The row for a depth.
    fn row(self, alloc: Global, source: Source<'_>, depth: usize) -> Result<String, AllocError> {
        let mark = self.mark(depth, depth.saturating_add(1));
        let wanted = self.wanted_text(alloc, depth)?;
        let made = made_text(alloc, source, at_depth(self.stack, depth))?;
        format!(in alloc; "{mark} {depth:>5}{wanted}{made}")
    }

    /// The rows, the top first. After the first of many the last row counts the others.
    fn rows(self, alloc: Global, source: Source<'_>) -> Result<String, AllocError> {
        let count = self.len();
        if count == 0 {
            return String::from_str(alloc, "  nothing\n");
        }
        let mut text = String::new(alloc);
        for depth in 0..count.min(MOST_ENTRIES) {
            text.push_str(self.row(alloc, source, depth)?.as_str())?;
        }
        if count > MOST_ENTRIES {
            let (mark, more) = (self.mark(MOST_ENTRIES, count), count - MOST_ENTRIES);
            write!(text, "{mark} .. and {more} more\n")?;
        }
        Ok(text)
    }
}

/// Which instruction of its line it is, if others of the line come before it.
fn place_note(alloc: Global, before: usize) -> Result<String, AllocError> {
    if before == 0 {
        return Ok(String::new(alloc));
    }
    let number = before.saturating_add(1);
    format!(in alloc; "it is instruction {number} of its line\n")
}

/// What the parts of an IF leave.
fn parts_text(
    alloc: Global,
    source: Source<'_>,
    first: &[StackEntry],
    second: &[StackEntry],
) -> Result<String, AllocError> {
    let if_true = Table {
        stack: first,
        beside: Beside::Part(second),
    };
    let if_false = Table {
        stack: second,
        beside: Beside::Part(first),
    };
    let (if_true, if_false) = (if_true.rows(alloc, source)?, if_false.rows(alloc, source)?);
    format!(in alloc;
        "if its flag is T, the IF leaves, the top first:\n{if_true}\
         if its flag is F, the IF leaves, the top first:\n{if_false}\
         * marks what the other part doesn't leave, counted from the bottom\n"
    )
}

/// What is wanted beside the stack of the function of this name.
fn wanted_text(
    alloc: Global,
    source: Source<'_>,
    name: &str,
    count: usize,
    table: Table<'_>,
) -> Result<String, AllocError> {
    let there = table.stack.len();
    let rows = table.rows(alloc, source)?;
    format!(in alloc;
        "entries wanted: {count}, on the stack of {name}: {there}; the top first, * marks what differs\n  \
         entry  operand  wanted   there\n{rows}"
    )
}

/// Where kinds don't fit in the function of this name.
fn misfit_text(
    alloc: Global,
    source: Source<'_>,
    name: &str,
    misfit: &Misfit,
) -> Result<String, AllocError> {
    let stack = misfit.stack.as_slice();
    let (count, beside) = match &misfit.clash {
        Clash::Operands(wanted, names) => (wanted.len(), Beside::Operands(wanted, names)),
        Clash::Results(wanted) => (wanted.len(), Beside::Results(wanted)),
        Clash::Parts(second) => return parts_text(alloc, source, stack, second),
    };
    let place = place_note(alloc, misfit.before)?;
    let text = wanted_text(alloc, source, name, count, Table { stack, beside })?;
    format!(in alloc; "{place}{text}")
}

/// Where kinds don't fit in a program, if that is at this line.
fn found_text(
    alloc: Global,
    source: Source<'_>,
    line: u64,
    program: &Program<Global>,
    misfit: &Misfit,
) -> Result<String, AllocError> {
    if source.parts.code.line(misfit.line) != line {
        return Ok(String::new(alloc));
    }
    match program.functions().get(misfit.function) {
        Some(function) => {
            let name = printable(alloc, function.name())?;
            misfit_text(alloc, source, name.as_str(), misfit)
        }
        None => Ok(String::new(alloc)),
    }
}

/// Where kinds don't fit, if that is at this line.
fn clash_text(
    alloc: Global,
    source: Source<'_>,
    line: u64,
    program: &Program<Global>,
    signatures: &Signatures<Global>,
) -> Result<String, AllocError> {
    match misfit_of(alloc, program, signatures)? {
        Some(misfit) => found_text(alloc, source, line, program, &misfit),
        None => Ok(String::new(alloc)),
    }
}

/// Adds a name to a list of names.
fn push_name(text: &mut String, alloc: Global, name: &[u8]) -> Result<(), AllocError> {
    if !text.is_empty() {
        text.push_str(", ")?;
    }
    let name = printable(alloc, name)?;
    text.push_str(name.as_str())
}

/// The names of the functions of a program.
fn functions_note(alloc: Global, program: &Program<Global>) -> Result<String, AllocError> {
    let mut names = String::new(alloc);
    for (place, function) in program.functions().iter().enumerate() {
        if place == MOST_NAMES {
            names.push_str(", ..")?;
            break;
        }
        push_name(&mut names, alloc, function.name())?;
    }
    format!(in alloc; "the functions of the job: {names}\n")
}

/// The names that have signatures.
fn signatures_note(alloc: Global, signatures: &Signatures<Global>) -> Result<String, AllocError> {
    let mut names = String::new(alloc);
    for place in 0..signatures.len() {
        if place == MOST_NAMES {
            names.push_str(", ..")?;
            break;
        }
        if let Some((name, _, _)) = signatures.at(place) {
            push_name(&mut names, alloc, name)?;
        }
    }
    format!(in alloc; "the signatures of the job: {names}\n")
}

/// Kinds as a signature has them.
fn kinds_text(alloc: Global, kinds: &[Kind]) -> Result<String, AllocError> {
    let mut text = String::from_str(alloc, "(")?;
    for (place, kind) in kinds.iter().enumerate() {
        if place > 0 {
            text.push(' ')?;
        }
        text.push_str(kind_text(*kind))?;
    }
    text.push(')')?;
    Ok(text)
}

/// The signature of MAIN.
fn main_note(alloc: Global, signatures: &Signatures<Global>) -> Result<String, AllocError> {
    let Some((takes, gives)) = signatures.get(b"MAIN") else {
        return Ok(String::new(alloc));
    };
    let takes = kinds_text(alloc, takes)?;
    let gives = kinds_text(alloc, gives)?;
    format!(in alloc; "wanted: MAIN () -> {gives}; there: MAIN {takes} -> {gives}\n")
}

/// What was expected at a line of a job where kinds have a fault.
fn expected_note(
    alloc: Global,
    source: Source<'_>,
    line: u64,
    fault: KindFault,
    program: &Program<Global>,
    signatures: &Signatures<Global>,
) -> Result<String, AllocError> {
    match fault {
        KindFault::MissingOperand
        | KindFault::WrongKind
        | KindFault::ArmsDiffer
        | KindFault::ResultDiffers => clash_text(alloc, source, line, program, signatures),
        KindFault::UnknownFunction | KindFault::NoMain => functions_note(alloc, program),
        KindFault::NoSignature => signatures_note(alloc, signatures),
        KindFault::MainTakes => main_note(alloc, signatures),
    }
}

/// What was expected at a line where kinds have a fault.
pub(crate) fn kind_note(
    alloc: Global,
    lines: &Lines,
    parts: Parts,
    line: u64,
    fault: KindFault,
) -> Result<String, AllocError> {
    let source = Source { lines, parts };
    match read_parts(alloc, source)? {
        Some((program, signatures)) => {
            let note = expected_note(alloc, source, line, fault, &program, &signatures);
            drop(program);
            drop(signatures);
            note
        }
        None => Ok(String::new(alloc)),
    }
}

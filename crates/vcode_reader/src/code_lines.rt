//! The lines of a function, small and without a list of their own each.

ghost use Rattle.std.specs.Prelude.{◌≡◌, ◌+◌, ◌-◌, ◌<◌, ◌≤◌, ◌^◌, ℕ, ℤ, List, [], ◌∷◌, ◌++◌, length, map, option_map};
ghost use Rattle.std.specs.Prelude.{slice_get, IfOk};
ghost use Rattle.std.specs.Prelude.{IfSome, MatchOption, OnOk, OnErr};
ghost use Rattle.vcode_base.specs.declared.instr.Instr.TheVariants as instr;
ghost use Rattle.vcode_reader.specs.Callees.{called_by};
ghost use Rattle.vcode_reader.specs.Pools.{first_with, list_in, name_in, list_of, name_of, part_of};
ghost use Rattle.vcode_reader.specs.Pools.{pooled_instruction, pooled_item, pooled_line, shown_item, shown_lines};
ghost use Rattle.vcode_reader.specs.Pools.{span_of, target_of};
ghost use Rattle.vcode_reader.specs.Pools.{line_with_target, waits_before, with_targets, ItemLiesIn, LiesIn};
ghost use Rattle.vcode_reader.specs.Room.{FitsPools};
ghost use Rattle.vcode_reader.specs.Targets.{first_of, target_at, targets_of};
ghost use Rattle.vcode_reader.specs.Trees.{line_of};

use crate::front_list::FrontList;
use crate::line::{CodeItem, CodeLine, Numbered};
use std::alloc::{AllocError, Allocator};
use std::marker::Model;
use vcode_base::{
    Elements, Elementwise, Instr, Instruction, Scalar, Segmented, Sequence, StackMove, Words,
};

/// A part of a list: where it begins and how many elements it has.
#[derive(Clone, Copy, PartialEq, Eq, Debug)]
pub struct Span {
    pub start: u32,
    pub len: u32,
}

/// An item with the place of its list or of its name: an instruction, of which `DoIf` is `IF`, or else an IF, its ELSE
/// or its ENDIF. An IF and an ELSE have the place of the line that they go on at, once that is found.
#[derive(PartialEq, Eq, Drop)]
pub enum PooledItem {
    Const(Scalar, Span),
    Elementwise(Elementwise),
    Segmented(Segmented),
    DoIf,
    Move(StackMove, u16, u16),
    Call(Span),
    Return,
    If(Option<u32>),
    Else(Option<u32>),
    Endif,
}

/// A line of 16 bytes: its item, and how far its number is from that of the first line.
#[derive(PartialEq, Eq, Drop)]
pub struct PooledLine {
    pub item: PooledItem,
    pub distance: u32,
}

/// The lines of a function that is being read, without their targets, and the number of the first.
#[derive(Drop)]
pub struct GrowingLines<A: Allocator> {
    first: u64,
    lines: Vec<PooledLine, A>,
    lists: Vec<i64, A>,
    names: Vec<u8, A>,
}

impl<A: Allocator> Model for GrowingLines<A> {
    ghost use Rattle.std.specs.Prelude.{List};
    ghost use Rattle.vcode_reader.specs.Trees.{CodeLine as CodeLineOf};

    ghost Value = { List CodeLineOf };

    ghost use Rattle.vcode_reader.specs.Pools.{ArePooled, shown_lines};

    ghost view = { λ c. shown_lines c.first c.lists.items c.names.items c.lines.items };

    ghost invariant = { λ c. ArePooled c.first c.lines.items c.lists.items c.names.items };
}

impl<A: Allocator + Clone> GrowingLines<A> {
    /// No line.
    pub(crate) fn new(alloc: A) -> Result<GrowingLines<A>, AllocError>
        ensures { IfOk result (λ lines. lines ≡ []) }
    {
        Ok(GrowingLines {
            first: 0,
            lines: Vec::new(alloc.clone()?),
            lists: Vec::new(alloc.clone()?),
            names: Vec::new(alloc),
        })
    }
}

impl<A: Allocator> GrowingLines<A> {
    /// Adds a line at the end. If memory is refused, nothing changes.
    #[inline(always)]
    #[tactic(auto, using(crate::proofs::Earlier::push_steps))]
    pub(crate) fn push(&mut self, line: CodeLine<'_>) -> Result<(), AllocError>
        requires { FitsPools (self.old ++ line ∷ []) }
        ensures pushed { OnOk result (self.new ≡ self.old ++ line.entry ∷ []) }
        ensures unchanged { OnErr result (self.new ≡ self.old) }
    {
        let first = first_with(self.first, self.lines.len(), line.number);
        add_line(
            first,
            &mut self.lines,
            &mut self.lists,
            &mut self.names,
            line,
        )?;
        self.first = first;
        Ok(())
    }

    /// Removes all lines.
    pub(crate) fn clear(&mut self)
        ensures { self.new ≡ [] }
    {
        self.first = 0;
        self.lines.clear();
        self.lists.clear();
        self.names.clear();
    }

    /// The lines with their targets, in no more memory than they need.
    #[tactic(auto, using(crate::proofs::Pooling::shown_length, crate::proofs::Linking::now_shown))]
    pub(crate) fn into_lines(self, alloc: A) -> Result<CodeLines<A>, AllocError>
        requires { length self < 2 ^ 32 }
        ensures { IfOk result (λ lines. lines ≡ self) }
    {
        let GrowingLines {
            first,
            mut lines,
            mut lists,
            mut names,
        } = self;
        set_targets(alloc, lines.as_mut_slice())?;
        lines.shrink_to_fit();
        lists.shrink_to_fit();
        names.shrink_to_fit();
        Ok(CodeLines {
            first,
            lines: Sequence::from_vec(lines),
            lists: Sequence::from_vec(lists),
            names: Sequence::from_vec(names),
        })
    }
}

/// The lines of a function, with the target of each IF and ELSE, and the number of the first. The lists of its
/// constants lie one after another, and so do the names of its CALLs.
#[derive(Drop)]
#[derive_where(PartialEq, Eq)]
pub struct CodeLines<A: Allocator> {
    first: u64,
    lines: Sequence<PooledLine, A>,
    lists: Words<A>,
    names: Sequence<u8, A>,
}

impl<A: Allocator> Model for CodeLines<A> {
    ghost use Rattle.std.specs.Prelude.{ℕ, ℤ, List};
    ghost use Rattle.std.proofs.Common.{ap, sym, ◌∙◌};
    ghost use Rattle.vcode_reader.specs.Trees.{CodeLine as CodeLineOf};

    ghost Value = { List CodeLineOf };

    ghost use Rattle.vcode_reader.specs.Pools.{AreLinked, PooledLine, all_lists, all_names, least_number, linked_lines};
    ghost use Rattle.vcode_reader.specs.Pools.{shown_lines};

    ghost view = { λ c. shown_lines c.first c.lists c.names c.lines };

    ghost invariant = { λ c. AreLinked c.first c.lines c.lists c.names };

    ghost inverse = { λ xs. record {
      first = least_number xs;
      lines = linked_lines xs;
      lists = all_lists xs;
      names = all_names xs;
    } };

    ghost inverse_ok = { λ c h. let xs : List CodeLineOf = shown_lines c.first c.lists c.names c.lines in
        ap (λ (n : ℕ). record c { first = n; lines = linked_lines xs; lists = all_lists xs; names = all_names xs })
        (sym h.least)
        ∙ (ap (λ (ps : List PooledLine). record c { lines = ps; lists = all_lists xs; names = all_names xs })
        (sym h.lines)
        ∙ (ap (λ (ls : List ℤ). record c { lists = ls; names = all_names xs }) (sym h.lists)
        ∙ ap (λ (ns : List ℕ). record c { names = ns }) (sym h.names))) };
}

impl<A: Allocator> CodeLines<A> {
    /// How many lines there are.
    #[tactic(auto, using(crate::proofs::Pooling::shown_length))]
    pub(crate) fn len(&self) -> usize
        ensures { result ≡ length self.now }
    {
        self.lines.len()
    }

    /// The line at a place, counted from 0, if there is one.
    #[inline(always)]
    #[tactic(auto, using(crate::proofs::Pooling::not_got, crate::proofs::Pooling::no_line_there))]
    pub(crate) fn get(&self, place: usize) -> Option<CodeLine<'_>>
        ensures { result ≡ slice_get self.now place }
    {
        let lines = self.lines.as_slice();
        let lists = self.lists.as_slice();
        let names = self.names.as_slice();
        let line = lines.get(place)?;
        let item = shown_item(&line.item, lists, names);
        Some(Numbered {
            item,
            number: self.first + line.distance as u64,
        })
    }

    /// The target of the line at a place, if that isn't the next line.
    pub(crate) fn target(&self, place: usize) -> Option<usize>
        ensures { result ≡ target_at self.now place }
    {
        let line = self.lines.as_slice().get(place)?;
        let target = target_of(&line.item)?;
        Some(target as usize)
    }

    /// The name that the line at a place calls, if it is a `CALL`.
    #[inline(always)]
    pub(crate) fn called(&self, place: usize) -> Option<&[u8]>
        requires { place < length self.now }
        ensures { IfSome (slice_get self.now place) (λ x. option_map (λ name. name.now) result ≡ called_by x.item) }
    {
        let line = &self.lines.as_slice()[place];
        called_by(&line.item, self.names.as_slice())
    }
}

/// The number of the first line once a line of this number is added, where `len` lines are there.
#[inline(always)]
fn first_with(first: u64, len: usize, number: u64) -> u64
    ensures { result ≡ first_with first len number }
{
    if len > 0 { first } else { number }
}

/// How far a number is from that of the first line. Distances take 32 bits.
#[inline(always)]
fn distance(first: u64, number: u64) -> u32
    requires after { first ≤ number }
    requires near { number < first + 2 ^ 32 }
    ensures { result ≡ number - first }
{
    (number - first) as u32
}

/// Adds a line, with its list or its name, after the others.
#[inline(always)]
fn add_line<A: Allocator>(
    first: u64,
    lines: &mut Vec<PooledLine, A>,
    lists: &mut Vec<i64, A>,
    names: &mut Vec<u8, A>,
    line: CodeLine<'_>,
) -> Result<(), AllocError>
    requires after { first ≤ line.number }
    requires near { line.number < first + 2 ^ 32 }
    requires list { length lists.old.items + length (list_of line.item) < 2 ^ 32 }
    requires name { length names.old.items + length (name_of line.item) < 2 ^ 32 }
    ensures lines { OnOk result (lines.new.items
        ≡ lines.old.items ++ pooled_line first (length lists.old.items) (length names.old.items) line.entry ∷ []) }
    ensures lists { OnOk result (lists.new.items ≡ lists.old.items ++ list_of line.entry.item) }
    ensures names { OnOk result (names.new.items ≡ names.old.items ++ name_of line.entry.item) }
    ensures same_lines { OnErr result (lines.new.items ≡ lines.old.items) }
    ensures same_lists { OnErr result (lists.new.items ≡ lists.old.items) }
    ensures same_names { OnErr result (names.new.items ≡ names.old.items) }
{
    let distance = distance(first, line.number);
    lines.reserve(1)?;
    let item = pooled_item(line.item, lists, names)?;
    lines.push_reserved(PooledLine { item, distance });
    Ok(())
}

/// Adds the list or the name of an item to its pool.
#[inline(always)]
fn pooled_item<A: Allocator>(
    item: CodeItem<Instruction<'_>>,
    lists: &mut Vec<i64, A>,
    names: &mut Vec<u8, A>,
) -> Result<PooledItem, AllocError>
    requires list { length lists.old.items + length (list_of item) < 2 ^ 32 }
    requires name { length names.old.items + length (name_of item) < 2 ^ 32 }
    ensures item { IfOk result (λ i. i ≡ pooled_item (length lists.old.items) (length names.old.items) item.entry) }
    ensures lists { OnOk result (lists.new.items ≡ lists.old.items ++ list_of item.entry) }
    ensures names { OnOk result (names.new.items ≡ names.old.items ++ name_of item.entry) }
    ensures same_lists { OnErr result (lists.new.items ≡ lists.old.items) }
    ensures same_names { OnErr result (names.new.items ≡ names.old.items) }
{
    match item {
        CodeItem::Do(instruction) => pooled_instruction(instruction, lists, names),
        CodeItem::If => Ok(PooledItem::If(None)),
        CodeItem::Else => Ok(PooledItem::Else(None)),
        CodeItem::Endif => Ok(PooledItem::Endif),
    }
}

/// Adds the list or the name of an instruction to its pool.
#[inline(always)]
fn pooled_instruction<A: Allocator>(
    instruction: Instruction<'_>,
    lists: &mut Vec<i64, A>,
    names: &mut Vec<u8, A>,
) -> Result<PooledItem, AllocError>
    requires list { length lists.old.items + length (list_in instruction) < 2 ^ 32 }
    requires name { length names.old.items + length (name_in instruction) < 2 ^ 32 }
    ensures instruction { IfOk result (λ i.
        i ≡ pooled_instruction (length lists.old.items) (length names.old.items) instruction.entry) }
    ensures lists { OnOk result (lists.new.items ≡ lists.old.items ++ list_in instruction.entry) }
    ensures names { OnOk result (names.new.items ≡ names.old.items ++ name_in instruction.entry) }
    ensures same_lists { OnErr result (lists.new.items ≡ lists.old.items) }
    ensures same_names { OnErr result (names.new.items ≡ names.old.items) }
{
    match instruction {
        Instr::Const(kind, list) => Ok(PooledItem::Const(kind, add_words(lists, list.as_slice())?)),
        Instr::Elementwise(op) => Ok(PooledItem::Elementwise(op)),
        Instr::Segmented(op) => Ok(PooledItem::Segmented(op)),
        Instr::If => Ok(PooledItem::DoIf),
        Instr::Move(motion, lower, upper) => Ok(PooledItem::Move(motion, lower, upper)),
        Instr::Call(name) => Ok(PooledItem::Call(add_bytes(names, name.as_slice())?)),
        Instr::Return => Ok(PooledItem::Return),
    }
}

/// Where a list of this length lies that is added to a pool of that many elements. Places take 32 bits.
#[inline(always)]
fn next_span(start: usize, len: usize) -> Span
    requires { start + len < 2 ^ 32 }
    ensures { result ≡ record { start = start; len = len } }
{
    Span {
        start: start as u32,
        len: len as u32,
    }
}

/// Adds the list of a constant to the others, and answers where it lies.
#[inline(always)]
fn add_words<A: Allocator>(lists: &mut Vec<i64, A>, list: &[i64]) -> Result<Span, AllocError>
    requires { length lists.old.items + length list.now < 2 ^ 32 }
    ensures span { IfOk result (λ span. span ≡ span_of (length lists.old.items) list.now) }
    ensures added { OnOk result (lists.new.items ≡ lists.old.items ++ list.now) }
    ensures unchanged { OnErr result (lists.new.items ≡ lists.old.items) }
{
    let span = next_span(lists.len(), list.len());
    lists.extend_from_slice(list)?;
    Ok(span)
}

/// Adds the name of a `CALL` to the others, and answers where it lies.
#[inline(always)]
fn add_bytes<A: Allocator>(names: &mut Vec<u8, A>, name: &[u8]) -> Result<Span, AllocError>
    requires { length names.old.items + length name.now < 2 ^ 32 }
    ensures span { IfOk result (λ span. span ≡ span_of (length names.old.items) name.now) }
    ensures added { OnOk result (names.new.items ≡ names.old.items ++ name.now) }
    ensures unchanged { OnErr result (names.new.items ≡ names.old.items) }
{
    let span = next_span(names.len(), name.len());
    names.extend_from_slice(name)?;
    Ok(span)
}

/// An item with its list or its name.
#[inline(always)]
fn shown_item<'a>(item: &PooledItem, lists: &'a [i64], names: &'a [u8]) -> CodeItem<Instruction<'a>>
    requires { ItemLiesIn lists.now names.now item.now }
    ensures { result ≡ shown_item lists.now names.now item.now }
{
    match item {
        PooledItem::Const(kind, span) => {
            CodeItem::Do(Instr::Const(*kind, Elements::new(part_of(lists, *span))))
        }
        PooledItem::Elementwise(op) => CodeItem::Do(Instr::Elementwise(*op)),
        PooledItem::Segmented(op) => CodeItem::Do(Instr::Segmented(*op)),
        PooledItem::DoIf => CodeItem::Do(Instr::If),
        PooledItem::Move(motion, lower, upper) => CodeItem::Do(Instr::Move(
            *motion, *lower, *upper,
        )),
        PooledItem::Call(span) => CodeItem::Do(Instr::Call(Elements::new(part_of(names, *span)))),
        PooledItem::Return => CodeItem::Do(Instr::Return),
        PooledItem::If(_) => CodeItem::If,
        PooledItem::Else(_) => CodeItem::Else,
        PooledItem::Endif => CodeItem::Endif,
    }
}

/// The name that an item calls, if it is a `CALL`.
#[inline(always)]
fn called_by<'a>(item: &PooledItem, names: &'a [u8]) -> Option<&'a [u8]>
    requires { (lists : List ℤ) × ItemLiesIn lists names.now item.now }
    ensures { (lists : List ℤ) → option_map (λ name. name.now) result
        ≡ called_by (shown_item lists names.now item.now) }
{
    match item {
        PooledItem::Call(span) => Some(part_of(names, *span)),
        _ => None,
    }
}

/// The part of a pool at a place.
#[inline(always)]
fn part_of<T>(pool: &[T], span: Span) -> &[T]
    requires { LiesIn pool.now span }
    ensures { result.now ≡ part_of pool.now span }
{
    let start = span.start as usize;
    &pool[start..start + span.len as usize]
}

/// The place that an item goes on at, if it has one.
fn target_of(item: &PooledItem) -> Option<u32>
    ensures { result ≡ target_of item.now }
{
    match item {
        PooledItem::If(target) | PooledItem::Else(target) => *target,
        _ => None,
    }
}

/// Sets the targets of all lines, from the last to the first. Places take 32 bits.
fn set_targets<A: Allocator>(alloc: A, lines: &mut [PooledLine]) -> Result<(), AllocError>
    requires { length lines.old < 2 ^ 32 }
    ensures { OnOk result ((first : ℕ) (ls : List ℤ) (ns : List ℕ) →
        lines.new ≡ with_targets (targets_of (shown_lines first ls ns lines.old)) lines.old) }
{
    let mut waits = FrontList::new(alloc);
    let mut place = lines.len() as u32;
    while place > 0 {
        place -= 1;
        set_target(&mut lines[place as usize], place, &mut waits)?;
    }
    Ok(())
}

/// Sets the target of the line at a place. The places that wait are those that earlier lines go on at.
#[inline(always)]
fn set_target<A: Allocator>(
    line: &mut PooledLine,
    place: u32,
    waits: &mut FrontList<u32, A>,
) -> Result<(), AllocError>
    requires { place + 1 < 2 ^ 32 }
    ensures line { OnOk result (line.new ≡ line_with_target (first_of waits.old) line.old) }
    ensures waits { OnOk result (waits.new ≡ waits_before line.old.item place waits.old) }
{
    match &mut line.item {
        PooledItem::If(target) => *target = waits.pop(),
        PooledItem::Else(target) => {
            *target = waits.pop();
            waits.push(place + 1)?;
        }
        PooledItem::Endif => waits.push(place + 1)?,
        _ => {}
    }
    Ok(())
}

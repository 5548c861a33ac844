//! A text, word by word.

ghost use Rattle.std.specs.Prelude.{◌≡◌, ℕ, List, [], ◌∷◌, None, Some, true, false, codes, OnOk, IfOk, IfSome};
ghost use Rattle.vcode_reader.specs.declared.head.Head.TheVariants.{Return, If, Else, Endif};
ghost use Rattle.vcode_reader.specs.declared.place.Place.TheVariants.{Inside, InsideOrInt};
ghost use Rattle.vcode_reader.specs.declared.keyword.Keyword.TheVariants.{Const, Move};
ghost use Rattle.vcode_reader.specs.Ahead.{BeginsItem, IsDigit, awaits_number};
ghost use Rattle.vcode_reader.specs.Drafts.{is_open};
ghost use Rattle.vcode_reader.specs.Heads.{head_slots};
ghost use Rattle.vcode_reader.specs.Keywords.{ItemParts, keyword_slots, takes_kind};
ghost use Rattle.vcode_reader.specs.Parsing.{start, with_fault, after_slot, item_place, after_part};
ghost use Rattle.vcode_reader.specs.Parsing.{with_kind, with_value, counted_parts};
ghost use Rattle.vcode_reader.specs.Parsing.{with_count, with_callee, in_slot, one_element, in_list, outside, has_name};
ghost use Rattle.vcode_reader.specs.Parsing.{after_name, after_return, inside, at_place, take};
ghost use Rattle.vcode_reader.specs.Parsing.{is_no_name, no_value, int_of, kind_of, count_in};
ghost use Rattle.vcode_reader.specs.Numbers.{natural_of, number_of, value_of};
ghost use Rattle.vcode_reader.specs.Reading.{at_end, result_at_end, unfinished_at, unless, Gives};
ghost use Rattle.vcode_reader.specs.Room.{FitsParse};

use crate::code::Draft;
use crate::fault::{CodeFault, ReadFault};
use crate::head::{Head, head_of};
use crate::keyword::{Entries, Keyword, Slots, WordSlot};
use crate::number::value_of;
use crate::parts::{InstructionParts, clear, no_parts};
use crate::place::Place;
use crate::program::Function;
use crate::word::{count_in, int_of, is_no_name, kind_of, no_value};
use std::alloc::{AllocError, Allocator};
use std::marker::Model;
use std::mem;
use text_ends::innermost_open;
use vcode_base::limits::{LONGEST_NAME, MOST_ELEMENTS, MOST_FUNCTIONS, MOST_OPEN_IFS};
use vcode_base::{FunctionName, Scalar, StackMove};

/// The reading of the words so far, and what is open after them.
#[derive(Drop)]
pub struct Parser<A: Allocator> {
    functions: Vec<Function<A>, A>,
    place: Place,
    name: FunctionName<A>,
    line: u64,
    draft: Draft<A>,
    slots: Slots,
    parts: InstructionParts<A>,
    fault: Option<(CodeFault, u64)>,
    alloc: A,
}

impl<A: Allocator> Model for Parser<A> {
    ghost use Rattle.vcode_reader.specs.Parsing.{Parse};

    ghost Value = { Parse };

    ghost use Rattle.std.specs.Coded.{codes};
    ghost use Rattle.vcode_reader.specs.ParseCode.{parse_code};

    ghost coded = { parse_code (Prim.hlevel codes) (Prim.hlevel codes) (Prim.hlevel codes) (Prim.hlevel codes)
        (Prim.hlevel codes) (Prim.hlevel codes) };

    ghost view = { λ p. record {
      functions = p.functions.items;
      place = p.place;
      name = p.name;
      line = p.line;
      draft = p.draft;
      slots = p.slots;
      parts = p.parts;
      fault = p.fault;
    } };
}

fn has_name<A: Allocator>(word: &[u8], functions: &[Function<A>]) -> bool
    ensures { result ≡ has_name word.now functions.now }
{
    for f in functions {
        if word == f.name() {
            return true;
        }
    }
    false
}

/// The place of an item, or if `int` also of a word `INT`.
fn item_place(int: bool) -> Place
    ensures { result ≡ item_place int }
{
    if int {
        Place::InsideOrInt
    } else {
        Place::Inside
    }
}

fn name_of<A: Allocator>(alloc: A, word: &[u8]) -> Result<FunctionName<A>, AllocError>
    ensures { IfOk result (λ name. name ≡ word.now) }
{
    Ok(FunctionName::from_vec(word.to_vec(alloc)?))
}

impl<A: Allocator + Clone> Parser<A> {
    /// Before the first word of a text.
    pub(crate) fn new(alloc: A) -> Result<Parser<A>, AllocError>
        ensures { IfOk result (λ p. p ≡ start) }
    {
        Ok(Parser {
            name: FunctionName::from_vec(Vec::new(alloc.clone()?)),
            parts: no_parts(&alloc)?,
            draft: Draft::new(alloc.clone()?)?,
            functions: Vec::new(alloc.clone()?),
            place: Place::Outside,
            line: 0,
            slots: Slots::none(),
            fault: None,
            alloc,
        })
    }

    fn refuse(&mut self, fault: CodeFault, line: u64)
        ensures { self.new ≡ with_fault fault line self.old }
    {
        self.fault = Some((fault, line));
    }

    /// Goes on to the next words of an instruction, or ends it.
    #[inline(always)]
    fn next_slot(&mut self, keyword: Keyword, begun: u64) -> Result<(), AllocError>
        requires fits { FitsParse (after_slot keyword begun self.old.slots self.old) }
        ensures { OnOk result (self.new ≡ after_slot keyword begun self.old.slots self.old) }
    {
        match self.slots.next() {
            Some(slot) => {
                self.place = Place::Words(keyword, slot, begun);
                Ok(())
            }
            None => self.end_instruction(keyword, begun),
        }
    }

    /// An instruction whose words are all there goes after the others.
    #[inline(never)]
    fn end_instruction(&mut self, keyword: Keyword, begun: u64) -> Result<(), AllocError>
        requires slots { self.old.slots ≡ [] }
        requires fits { FitsParse (after_slot keyword begun [] self.old) }
        ensures { OnOk result (self.new ≡ after_slot keyword begun [] self.old) }
    {
        self.add_instruction(keyword, begun)
    }

    /// The same, in line.
    #[inline(always)]
    fn add_instruction(&mut self, keyword: Keyword, begun: u64) -> Result<(), AllocError>
        requires slots { self.old.slots ≡ [] }
        requires fits { FitsParse (after_slot keyword begun [] self.old) }
        ensures { OnOk result (self.new ≡ after_slot keyword begun [] self.old) }
    {
        self.draft.push(keyword.instruction(&self.parts), begun)?;
        clear(&mut self.parts);
        self.place = item_place(keyword.takes_int());
        Ok(())
    }

    /// Takes the word that gives the kind, if it is one.
    fn kind(
        &mut self,
        kind: Option<Scalar>,
        keyword: Keyword,
        begun: u64,
        line: u64,
    ) -> Result<(), AllocError>
        requires fits { FitsParse (after_part (with_kind kind self.old.parts) keyword begun line self.old) }
        ensures { OnOk result (self.new ≡ after_part (with_kind kind self.old.parts) keyword begun line self.old) }
    {
        match kind {
            None => self.refuse(CodeFault::BadWord, line),
            Some(kind) => {
                self.parts.kind = kind;
                self.next_slot(keyword, begun)?;
            }
        }
        Ok(())
    }

    /// Takes the one value of a constant that has no parentheses.
    fn one_value(
        &mut self,
        keyword: Keyword,
        begun: u64,
        word: &[u8],
        line: u64,
    ) -> Result<(), AllocError>
        requires fits { let given = with_value (value_of self.old.parts.kind word.now) word.now self.old.parts in
            FitsParse (after_part given keyword begun line self.old) }
        ensures { let given = with_value (value_of self.old.parts.kind word.now) word.now self.old.parts in
            OnOk result (self.new ≡ after_part given keyword begun line self.old) }
    {
        match value_of(self.parts.kind, word) {
            None => self.refuse(no_value(self.parts.kind, word), line),
            Some(n) => {
                self.parts.numbers.clear();
                self.parts.numbers.push(n)?;
                self.next_slot(keyword, begun)?;
            }
        }
        Ok(())
    }

    /// Takes the word that gives a count of a motion of the stack.
    fn count(
        &mut self,
        entries: Entries,
        keyword: Keyword,
        begun: u64,
        word: &[u8],
        line: u64,
    ) -> Result<(), AllocError>
        requires fits { let given = with_count entries (count_in (natural_of word.now) word.now) self.old.parts in
            FitsParse (after_part given keyword begun line self.old) }
        ensures { let given = with_count entries (count_in (natural_of word.now) word.now) self.old.parts in
            OnOk result (self.new ≡ after_part given keyword begun line self.old) }
    {
        match count_in(word) {
            Err(fault) => self.refuse(fault, line),
            Ok(count) => self.take_count(entries, count, keyword, begun)?,
        }
        Ok(())
    }

    /// Takes a good count of a motion of the stack.
    #[inline(always)]
    fn take_count(
        &mut self,
        entries: Entries,
        count: u16,
        keyword: Keyword,
        begun: u64,
    ) -> Result<(), AllocError>
        requires fits { let parts = counted_parts entries count self.old.parts in
            FitsParse (after_slot keyword begun self.old.slots (record self.old { parts = parts })) }
        ensures { let parts = counted_parts entries count self.old.parts in
            OnOk result (self.new ≡ after_slot keyword begun self.old.slots (record self.old { parts = parts })) }
    {
        match entries {
            Entries::Lower => self.parts.lower = count,
            Entries::Upper => self.parts.upper = count,
        }
        self.next_slot(keyword, begun)
    }

    /// Takes the name of the function that is called.
    fn callee(
        &mut self,
        keyword: Keyword,
        begun: u64,
        word: &[u8],
        line: u64,
    ) -> Result<(), AllocError>
        requires fits { FitsParse (after_part (with_callee word.now self.old.parts) keyword begun line self.old) }
        ensures { OnOk result (self.new
            ≡ after_part (with_callee word.now self.old.parts) keyword begun line self.old) }
    {
        if is_no_name(word) {
            self.refuse(CodeFault::BadWord, line);
        } else if word.len() > LONGEST_NAME {
            self.refuse(CodeFault::TooLarge, line);
        } else {
            self.take_callee(keyword, begun, word)?;
        }
        Ok(())
    }

    /// Takes a good name of the function that is called.
    fn take_callee(&mut self, keyword: Keyword, begun: u64, word: &[u8]) -> Result<(), AllocError>
        requires fits { let parts : ItemParts = record self.old.parts { callee = word.now } in
            FitsParse (after_slot keyword begun self.old.slots (record self.old { parts = parts })) }
        ensures { let parts : ItemParts = record self.old.parts { callee = word.now } in
            OnOk result (self.new ≡ after_slot keyword begun self.old.slots (record self.old { parts = parts })) }
    {
        self.parts.callee = name_of(self.alloc.clone()?, word)?;
        self.next_slot(keyword, begun)?;
        Ok(())
    }

    fn in_slot(
        &mut self,
        slot: WordSlot,
        keyword: Keyword,
        begun: u64,
        word: &[u8],
        line: u64,
    ) -> Result<(), AllocError>
        requires fits { FitsParse (in_slot slot keyword begun word.now line self.old) }
        ensures { OnOk result (self.new ≡ in_slot slot keyword begun word.now line self.old) }
    {
        match slot {
            WordSlot::Int => self.kind(int_of(word), keyword, begun, line),
            WordSlot::Kind => self.kind(kind_of(word), keyword, begun, line),
            WordSlot::Values => {
                if word == b"(".as_slice() {
                    self.parts.numbers.clear();
                    self.place = Place::Elements(keyword, begun, line);
                    Ok(())
                } else {
                    self.one_value(keyword, begun, word, line)
                }
            }
            WordSlot::Count(entries) => self.count(entries, keyword, begun, word, line),
            WordSlot::Callee => self.callee(keyword, begun, word, line),
        }
    }

    fn one_element(&mut self, word: &[u8], line: u64) -> Result<(), AllocError>
        ensures { OnOk result (self.new ≡ one_element (value_of self.old.parts.kind word.now) word.now line self.old) }
    {
        match value_of(self.parts.kind, word) {
            None => self.refuse(no_value(self.parts.kind, word), line),
            Some(n) => {
                if self.parts.numbers.len() < MOST_ELEMENTS {
                    self.parts.numbers.push(n)?;
                } else {
                    self.refuse(CodeFault::TooLarge, line);
                }
            }
        }
        Ok(())
    }

    fn in_list(
        &mut self,
        keyword: Keyword,
        begun: u64,
        word: &[u8],
        line: u64,
    ) -> Result<(), AllocError>
        requires fits { FitsParse (in_list keyword begun word.now line self.old) }
        ensures { OnOk result (self.new ≡ in_list keyword begun word.now line self.old) }
    {
        if word == b")".as_slice() {
            self.next_slot(keyword, begun)
        } else {
            self.one_element(word, line)
        }
    }

    fn outside(&mut self, head: Head, line: u64)
        ensures { self.new ≡ outside head line self.old }
    {
        match head {
            Head::Func => {
                if self.functions.len() < MOST_FUNCTIONS {
                    self.place = Place::Name;
                    self.line = line;
                } else {
                    self.refuse(CodeFault::TooLarge, line);
                }
            }
            Head::Other => self.refuse(CodeFault::BadWord, line),
            _ => self.refuse(CodeFault::Misplaced, line),
        }
    }

    fn name_function(&mut self, word: &[u8], line: u64) -> Result<(), AllocError>
        ensures { OnOk result (self.new ≡ after_name word.now line self.old) }
    {
        if is_no_name(word) {
            self.refuse(CodeFault::BadWord, line);
        } else if word.len() > LONGEST_NAME {
            self.refuse(CodeFault::TooLarge, line);
        } else if has_name(word, self.functions.as_slice()) {
            self.refuse(CodeFault::FunctionTwice, line);
        } else {
            self.take_name(word)?;
        }
        Ok(())
    }

    /// Takes a good name of the function that begins.
    fn take_name(&mut self, word: &[u8]) -> Result<(), AllocError>
        ensures { OnOk result (self.new ≡ record self.old { place = Inside; name = word.now }) }
    {
        self.name = name_of(self.alloc.clone()?, word)?;
        self.place = Place::Inside;
        Ok(())
    }

    #[tactic(auto, using(crate::proofs::Earlier::last_fits))]
    fn end_function(&mut self, line: u64) -> Result<(), AllocError>
        requires closed { is_open self.old.draft.ifs ≡ false }
        requires fits { FitsParse (after_return line self.old) }
        ensures { OnOk result (self.new ≡ after_return line self.old) }
    {
        let no_name = FunctionName::from_vec(Vec::new(self.alloc.clone()?));
        let no_lines = Draft::new(self.alloc.clone()?)?;
        let name = mem::replace(&mut self.name, no_name);
        let draft = mem::replace(&mut self.draft, no_lines);
        self.functions.push(Function::new(self.alloc.clone()?, name, self.line, draft, line)?)?;
        self.line = 0;
        self.place = Place::Outside;
        Ok(())
    }

    fn at_return(&mut self, line: u64) -> Result<(), AllocError>
        requires fits { FitsParse (inside Return [] line self.old) }
        ensures { OnOk result (self.new ≡ inside Return [] line self.old) }
    {
        if self.draft.is_open() {
            self.refuse(CodeFault::Misplaced, line);
            return Ok(());
        }
        self.end_function(line)
    }

    fn at_if(&mut self, line: u64) -> Result<(), AllocError>
        requires fits { FitsParse (inside If [] line self.old) }
        ensures { OnOk result (self.new ≡ inside If [] line self.old) }
    {
        if self.draft.depth() < MOST_OPEN_IFS {
            self.draft.begin_if(line)?;
            self.place = Place::Inside;
        } else {
            self.refuse(CodeFault::TooLarge, line);
        }
        Ok(())
    }

    fn at_else(&mut self, line: u64) -> Result<(), AllocError>
        requires fits { FitsParse (inside Else [] line self.old) }
        ensures { OnOk result (self.new ≡ inside Else [] line self.old) }
    {
        if self.draft.takes_else() {
            self.draft.begin_else()?;
            self.place = Place::Inside;
        } else {
            self.refuse(CodeFault::Misplaced, line);
        }
        Ok(())
    }

    fn at_endif(&mut self, line: u64) -> Result<(), AllocError>
        requires fits { FitsParse (inside Endif [] line self.old) }
        ensures { OnOk result (self.new ≡ inside Endif [] line self.old) }
    {
        if self.draft.is_open() {
            self.draft.end_if(line)?;
            self.place = Place::Inside;
        } else {
            self.refuse(CodeFault::Misplaced, line);
        }
        Ok(())
    }

    /// Takes the first word of an instruction.
    #[inline(always)]
    pub(crate) fn begin_instruction(
        &mut self,
        keyword: Keyword,
        line: u64,
    ) -> Result<(), AllocError>
        requires fits { FitsParse (after_slot keyword line (keyword_slots keyword) self.old) }
        ensures { OnOk result (self.new ≡ after_slot keyword line (keyword_slots keyword) self.old) }
    {
        self.slots = keyword.slots();
        self.next_slot(keyword, line)
    }

    /// Takes a word that begins this, at the place of an item.
    #[inline(never)]
    pub(crate) fn inside(&mut self, head: Head, line: u64) -> Result<(), AllocError>
        requires fits { FitsParse (inside head (head_slots head) line self.old) }
        ensures { OnOk result (self.new ≡ inside head (head_slots head) line self.old) }
    {
        match head {
            Head::Return => return self.at_return(line),
            Head::If => return self.at_if(line),
            Head::Else => return self.at_else(line),
            Head::Endif => return self.at_endif(line),
            Head::Start(keyword) => return self.begin_instruction(keyword, line),
            Head::Other => self.refuse(CodeFault::BadWord, line),
            Head::Func => self.refuse(CodeFault::Misplaced, line),
        }
        Ok(())
    }

    /// Takes a word at the place of an item, where a word `INT` may also stand, which says nothing.
    #[tactic(auto, using(crate::proofs::Spelling::slots_by_head))]
    fn inside_or_int(&mut self, word: &[u8], line: u64) -> Result<(), AllocError>
        requires fits { FitsParse (at_place InsideOrInt word.now line self.old) }
        ensures { OnOk result (self.new ≡ at_place InsideOrInt word.now line self.old) }
    {
        if word == b"INT".as_slice() {
            self.place = Place::Inside;
            return Ok(());
        }
        self.inside(head_of(word), line)
    }

    /// The first fault of the words so far.
    pub(crate) fn fault(&self) -> Option<(CodeFault, u64)>
        ensures { result ≡ self.now.fault }
    {
        self.fault
    }

    /// What a word begins, if it is at the place of an item.
    #[inline(always)]
    #[tactic(auto, unfolding(crate::specs::Parsing::take), using(crate::proofs::Spelling::slots_by_head))]
    pub(crate) fn head(&self, word: &[u8]) -> Option<Head>
        ensures { IfSome result (λ head. BeginsItem word.now head self.now) }
    {
        if self.fault.is_some() {
            return None;
        }
        if !matches!(self.place, Place::Inside) {
            return None;
        }
        Some(head_of(word))
    }

    /// Takes the words of a motion of the stack, whose counts are these digits.
    #[inline(always)]
    #[tactic(auto, using(crate::proofs::Numerals::of_digits))]
    pub(crate) fn take_move(
        &mut self,
        motion: StackMove,
        lower: u8,
        upper: u8,
        line: u64,
    ) -> Result<(), AllocError>
        requires good { self.old.fault ≡ None }
        requires lower { IsDigit lower }
        requires upper { IsDigit upper }
        requires fits { let begun = after_slot (Move motion) line (keyword_slots (Move motion)) self.old in
            FitsParse (take (upper ∷ []) line (take (lower ∷ []) line begun)) }
        ensures { let first = take (lower ∷ []) line (after_slot (Move motion) line
            (keyword_slots (Move motion)) self.old) in
            OnOk result (self.new ≡ take (upper ∷ []) line first) }
    {
        self.parts.lower = u16::from(lower - b'0');
        self.parts.upper = u16::from(upper - b'0');
        self.slots = Slots::none();
        self.add_instruction(Keyword::Move(motion), line)
    }

    /// Takes the words of a constant of one number.
    #[inline(always)]
    pub(crate) fn take_constant(&mut self, number: i64, line: u64) -> Result<(), AllocError>
        requires good { self.old.fault ≡ None }
        requires fits { let kind = take (codes "INT") line (after_slot Const line (keyword_slots Const) self.old) in
            (word : List ℕ) × (number_of word ≡ Some number) × FitsParse (take word line kind) }
        ensures { let kind = take (codes "INT") line (after_slot Const line (keyword_slots Const) self.old) in
            OnOk result ((word : List ℕ) → number_of word ≡ Some number → self.new ≡ take word line kind) }
    {
        self.parts.kind = Scalar::Int;
        self.parts.numbers.clear();
        self.parts.numbers.push(number)?;
        self.slots = Slots::none();
        self.add_instruction(Keyword::Const, line)
    }

    /// Takes the words of an instruction of one kind, which is `INT`.
    #[inline(always)]
    #[tactic(auto, using(crate::proofs::Numerals::of_int))]
    pub(crate) fn take_of_int(&mut self, keyword: Keyword, line: u64) -> Result<(), AllocError>
        requires good { self.old.fault ≡ None }
        requires kind { takes_kind keyword ≡ true }
        requires fits { FitsParse (take (codes "INT") line (after_slot keyword line (keyword_slots keyword) self.old)) }
        ensures { OnOk result (self.new
            ≡ take (codes "INT") line (after_slot keyword line (keyword_slots keyword) self.old)) }
    {
        self.parts.kind = Scalar::Int;
        self.slots = Slots::none();
        self.end_instruction(keyword, line)
    }

    /// Takes the next word, which is on this line.
    #[inline(never)]
    #[tactic(auto, unfolding(crate::specs::Parsing::take), using(crate::proofs::Spelling::slots_by_head))]
    pub(crate) fn take(&mut self, word: &[u8], line: u64) -> Result<(), AllocError>
        requires fits { FitsParse (take word.now line self.old) }
        ensures { OnOk result (self.new ≡ take word.now line self.old) }
    {
        if self.fault.is_some() {
            return Ok(());
        }
        match self.place {
            Place::Outside => {
                self.outside(head_of(word), line);
                Ok(())
            }
            Place::Name => self.name_function(word, line),
            Place::Inside => self.inside(head_of(word), line),
            Place::InsideOrInt => self.inside_or_int(word, line),
            Place::Words(keyword, slot, begun) => self.in_slot(slot, keyword, begun, word, line),
            Place::Elements(keyword, begun, _) => self.in_list(keyword, begun, word, line),
        }
    }

    /// Whether the next word is in a list of numbers.
    #[inline(always)]
    pub(crate) fn awaits_number(&self) -> bool
        ensures { result ≡ awaits_number self.now.place self.now.parts.kind }
    {
        matches!(
            (self.place, self.parts.kind),
            (Place::Elements(..), Scalar::Int)
        )
    }

    /// Takes the next word, which is this number on this line.
    #[inline(always)]
    #[tactic(auto, using(crate::proofs::Numerals::number_steps))]
    pub(crate) fn take_number(&mut self, number: i64, line: u64) -> Result<(), AllocError>
        requires { awaits_number self.old.place self.old.parts.kind ≡ true }
        ensures taken { OnOk result ((word : List ℕ) → number_of word ≡ Some number → self.new
            ≡ take word line self.old) }
        ensures number { awaits_number self.new.place self.new.parts.kind ≡ true }
    {
        if self.fault.is_some() {
            return Ok(());
        }
        if self.parts.numbers.len() < MOST_ELEMENTS {
            self.parts.numbers.push(number)?;
        } else {
            self.refuse(CodeFault::TooLarge, line);
        }
        Ok(())
    }

    /// The line where the innermost thing that is open begins, apart from a comment.
    fn open_line(&self) -> Option<u64>
        ensures { at_end self.now.place self.now ≡ unless (unfinished_at result) self.now.functions }
    {
        match self.place {
            Place::Outside => None,
            Place::Name => Some(self.line),
            Place::Inside | Place::InsideOrInt => Some(self.draft.innermost_line(self.line)),
            Place::Words(_, _, begun) => Some(begun),
            Place::Elements(_, _, opened) => Some(opened),
        }
    }

    /// The refusal if the text ends here: in a comment that begins at this line, or in none.
    fn refused_at_end(&self, comment: Option<u64>) -> Option<(CodeFault, u64)>
        ensures { result_at_end self.now.fault comment self.now ≡ unless result self.now.functions }
    {
        if let Some(fault) = self.fault {
            return Some(fault);
        }
        let line = innermost_open(comment, self.open_line())?;
        Some((CodeFault::Unfinished, line))
    }

    /// The reading of the text if it ends here: in a comment that begins at this line, or in none.
    pub(crate) fn result_at_end(
        self,
        comment: Option<u64>,
    ) -> Result<Vec<Function<A>, A>, ReadFault>
        ensures { Gives result (result_at_end self.fault comment self) }
    {
        match self.refused_at_end(comment) {
            Some((fault, line)) => {
                drop(self);
                Err(ReadFault::At(fault, line))
            }
            None => Ok(self.into_functions()),
        }
    }

    /// The functions that are whole.
    fn into_functions(self) -> Vec<Function<A>, A>
        ensures { result.items ≡ self.functions }
    {
        self.functions
    }
}

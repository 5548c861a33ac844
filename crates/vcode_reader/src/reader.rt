//! A text, byte by byte.

ghost use Rattle.std.specs.Prelude.{◌≡◌, ◌+◌, ◌<◌, ◌≤◌, ◌^◌, OnOk, OnErr, IsErr, IsErrOf, IfNone, IfOk, IfSome, IsTrue};
ghost use Rattle.std.specs.Prelude.{true, false, ℕ, List, [], ◌++◌, length, None, Some, Err};
ghost use Rattle.vcode_reader.specs.declared.class.Class.TheVariants.{LineFeed};
ghost use Rattle.vcode_base.specs.Lines.{line_feeds};
ghost use Rattle.vcode_base.specs.TextAnswers.{Answers};
ghost use Rattle.vcode_base.specs.declared.fault.TextFault.TheVariants.{Memory};
ghost use Rattle.vcode_reader.specs.Ahead.{awaits_number, begun};
ghost use Rattle.vcode_reader.specs.declared.keyword.Keyword.TheVariants.{Const, Move};
ghost use Rattle.vcode_reader.specs.Classes.{class_of, plain_length};
ghost use Rattle.vcode_reader.specs.First.{IsAnswer};
ghost use Rattle.vcode_reader.specs.Parsing.{start, take};
ghost use Rattle.vcode_reader.specs.Reading.{outcome, reading, Gives, HasCome};
ghost use Rattle.vcode_reader.specs.Refusals.{Fault};
ghost use Rattle.vcode_reader.specs.Room.{FitsParse, FitsText};
ghost use Rattle.vcode_reader.specs.declared.reader.TheConstants.{MOST_CODE_BYTES};
ghost use Rattle.vcode_reader.specs.Scan.{beginning, end_word, lone_word, in_text, in_comment, scan_byte, scan_all};

use crate::ahead::{digits_ahead, int_ahead, is_int_ahead, number_ahead};
use crate::class::{Class, class_of, is_plain, passed_length, plain_length};
use crate::fault::{CodeFault, ReadFault};
use crate::head::Head;
use crate::keyword::Keyword;
use crate::parser::Parser;
use crate::program::{Function, Program};
use std::alloc::{AllocError, Allocator};
use std::marker::Model;
use vcode_base::StackMove;

/// The most bytes of a code. Its lines, the elements of its lists and the bytes of its names are then counted in 32
/// bits.
pub const MOST_CODE_BYTES: usize = 2_147_483_647;

/// The state of a text that comes byte by byte.
#[derive(Drop)]
struct Scanner<A: Allocator> {
    parser: Parser<A>,
    line: u64,
    word: Vec<u8, A>,
    comment: Option<u64>,
}

impl<A: Allocator> Model for Scanner<A> {
    ghost use Rattle.vcode_reader.specs.Parsing.{Parse};
    ghost use Rattle.vcode_reader.specs.Scan.{Scan};

    ghost Value = { Scan Parse };

    ghost use Rattle.std.specs.Coded.{codes};
    ghost use Rattle.vcode_reader.specs.ParseCode.{parse_code, scan_code};

    ghost coded = { scan_code (parse_code (Prim.hlevel codes) (Prim.hlevel codes) (Prim.hlevel codes)
        (Prim.hlevel codes)
        (Prim.hlevel codes) (Prim.hlevel codes)) (Prim.hlevel codes) };

    ghost view = { λ s. record { found = s.parser; line = s.line; word = s.word.items; comment = s.comment } };
}

impl<A: Allocator + Clone> Scanner<A> {
    fn new(alloc: A, first_line: u64) -> Result<Scanner<A>, AllocError>
        ensures { IfOk result (λ s. s ≡ beginning start first_line) }
    {
        Ok(Scanner {
            word: Vec::new(alloc.clone()?),
            parser: Parser::new(alloc)?,
            line: first_line,
            comment: None,
        })
    }

    #[tactic(auto, unfolding(crate::specs::Scan::end_word))]
    fn end_word(&mut self) -> Result<(), AllocError>
        requires { FitsParse (end_word take self.old).found }
        ensures ok { OnOk result (self.new ≡ end_word take self.old) }
        ensures line { OnOk result (self.new.line ≡ self.old.line) }
    {
        if !self.word.is_empty() {
            self.parser.take(self.word.as_slice(), self.line)?;
            self.word.clear();
        }
        Ok(())
    }

    #[tactic(auto, unfolding(crate::specs::Scan::lone_word))]
    fn lone_word(&mut self, byte: u8) -> Result<(), AllocError>
        requires { FitsParse (lone_word take byte self.old).found }
        ensures { OnOk result (self.new ≡ lone_word take byte self.old) }
    {
        self.parser.take(&[byte], self.line)
    }

    #[tactic(auto, using(crate::proofs::Earlier::lone_steps))]
    fn in_text(&mut self, class: Class, byte: u8) -> Result<(), AllocError>
        requires room { class ≡ LineFeed → self.old.line + 1 < 2 ^ 64 }
        requires fits { FitsParse (in_text take class byte self.old).found }
        ensures { OnOk result (self.new ≡ in_text take class byte self.old) }
    {
        match class {
            Class::LineFeed => {
                self.end_word()?;
                self.line += 1;
            }
            Class::Blank => return self.end_word(),
            Class::OpenBrace => {
                self.end_word()?;
                self.comment = Some(self.line);
            }
            Class::CloseBrace | Class::Parenthesis | Class::Refused => {
                self.end_word()?;
                return self.lone_word(byte);
            }
            Class::Plain => self.word.push(byte)?,
        }
        Ok(())
    }

    fn in_comment(&mut self, class: Class)
        requires { class ≡ LineFeed → self.old.line + 1 < 2 ^ 64 }
        ensures { self.new ≡ in_comment class self.old }
    {
        match class {
            Class::LineFeed => self.line += 1,
            Class::CloseBrace => self.comment = None,
            _ => {}
        }
    }

    #[tactic(auto, unfolding(crate::specs::Scan::scan_byte))]
    fn byte(&mut self, byte: u8) -> Result<(), AllocError>
        requires room { class_of byte ≡ LineFeed → self.old.line + 1 < 2 ^ 64 }
        requires fits { FitsParse (scan_byte take self.old byte).found }
        ensures { OnOk result (self.new ≡ scan_byte take self.old byte) }
    {
        match self.comment {
            None => self.in_text(class_of(byte), byte)?,
            Some(_) => self.in_comment(class_of(byte)),
        }
        Ok(())
    }

    /// Takes the plain bytes at the front of a text outside a comment, and answers what is after them. They are a whole
    /// word if no word is open and other bytes follow; else they belong to the open word.
    #[inline(always)]
    fn plain_bytes<'p>(&mut self, text: &'p [u8]) -> Result<&'p [u8], AllocError>
        requires text { self.old.comment ≡ None }
        requires some { 1 ≤ plain_length text.now }
        requires fits { FitsText self.old text.now }
        ensures same { IfOk result (λ rest. scan_all take self.old text.now ≡ scan_all take self.new rest.now) }
        ensures shorter { IfOk result (λ rest. length rest.now < length text.now) }
    {
        let (plain, rest) = text.split_at(plain_length(text));
        if rest.is_empty() || !self.word.is_empty() {
            self.word.extend_from_slice(plain)?;
            return Ok(rest);
        }
        match self.parser.head(plain) {
            Some(Head::Start(keyword)) => self.instruction(keyword, rest),
            Some(head) => {
                self.parser.inside(head, self.line)?;
                Ok(rest)
            }
            None => {
                self.parser.take(plain, self.line)?;
                Ok(rest)
            }
        }
    }

    /// Begins an instruction after its first word, and takes the words that belong to it if they are short and at the
    /// front of a text. Answers what is after them.
    #[inline(always)]
    fn instruction<'p>(&mut self, keyword: Keyword, text: &'p [u8]) -> Result<&'p [u8], AllocError>
        requires text { self.old.comment ≡ None }
        requires word { self.old.word ≡ [] }
        requires good { self.old.found.fault ≡ None }
        requires fits { FitsText (begun keyword self.old) text.now }
        ensures same { IfOk result (λ rest.
            scan_all take (begun keyword self.old) text.now ≡ scan_all take self.new rest.now) }
        ensures within { IfOk result (λ rest. length rest.now ≤ length text.now) }
    {
        match keyword {
            Keyword::Move(motion) => self.motion(motion, text),
            Keyword::Const => self.constant(text),
            _ => self.of_int(keyword, text),
        }
    }

    /// Begins an instruction after its first word, and takes no other.
    #[inline(always)]
    #[tactic(auto, using(crate::proofs::Earlier::text_before))]
    fn begin<'p>(&mut self, keyword: Keyword, text: &'p [u8]) -> Result<&'p [u8], AllocError>
        requires { FitsText (begun keyword self.old) text.now }
        ensures same { IfOk result (λ rest.
            scan_all take (begun keyword self.old) text.now ≡ scan_all take self.new rest.now) }
        ensures within { IfOk result (λ rest. length rest.now ≤ length text.now) }
    {
        self.parser.begin_instruction(keyword, self.line)?;
        Ok(text)
    }

    /// The same for a motion of the stack, with its counts if they have one digit each.
    #[inline(always)]
    fn motion<'p>(&mut self, motion: StackMove, text: &'p [u8]) -> Result<&'p [u8], AllocError>
        requires text { self.old.comment ≡ None }
        requires word { self.old.word ≡ [] }
        requires good { self.old.found.fault ≡ None }
        requires fits { FitsText (begun (Move motion) self.old) text.now }
        ensures same { IfOk result (λ rest.
            scan_all take (begun (Move motion) self.old) text.now ≡ scan_all take self.new rest.now) }
        ensures within { IfOk result (λ rest. length rest.now ≤ length text.now) }
    {
        let Some((lower, upper)) = digits_ahead(text) else {
            return self.begin(Keyword::Move(motion), text);
        };
        let (_, rest) = text.split_at(4);
        self.parser.take_move(motion, lower, upper, self.line)?;
        Ok(rest)
    }

    /// The same for a constant, with its words if they are `INT` and a number.
    #[inline(always)]
    fn constant<'p>(&mut self, text: &'p [u8]) -> Result<&'p [u8], AllocError>
        requires text { self.old.comment ≡ None }
        requires word { self.old.word ≡ [] }
        requires good { self.old.found.fault ≡ None }
        requires fits { FitsText (begun Const self.old) text.now }
        ensures same { IfOk result (λ rest.
            scan_all take (begun Const self.old) text.now ≡ scan_all take self.new rest.now) }
        ensures within { IfOk result (λ rest. length rest.now ≤ length text.now) }
    {
        let Some((number, len)) = int_ahead(text) else {
            return self.begin(Keyword::Const, text);
        };
        let (_, rest) = text.split_at(len);
        self.parser.take_constant(number, self.line)?;
        Ok(rest)
    }

    /// The same for an instruction of one kind, with it if it is `INT`.
    #[inline(always)]
    fn of_int<'p>(&mut self, keyword: Keyword, text: &'p [u8]) -> Result<&'p [u8], AllocError>
        requires text { self.old.comment ≡ None }
        requires word { self.old.word ≡ [] }
        requires good { self.old.found.fault ≡ None }
        requires fits { FitsText (begun keyword self.old) text.now }
        ensures same { IfOk result (λ rest.
            scan_all take (begun keyword self.old) text.now ≡ scan_all take self.new rest.now) }
        ensures within { IfOk result (λ rest. length rest.now ≤ length text.now) }
    {
        if !keyword.takes_kind() {
            return self.begin(keyword, text);
        }
        if !is_int_ahead(text) {
            return self.begin(keyword, text);
        }
        let (_, rest) = text.split_at(4);
        self.parser.take_of_int(keyword, self.line)?;
        Ok(rest)
    }

    /// Takes a number of a list at the front of a text outside a comment, if it is whole, with the separator after it,
    /// and answers what is after them. Else nothing changes.
    #[inline(always)]
    fn next_number<'p>(&mut self, text: &'p [u8]) -> Result<Option<&'p [u8]>, AllocError>
        requires text { self.old.comment ≡ None }
        requires number { awaits_number self.old.found.place self.old.found.parts.kind ≡ true }
        requires room { self.old.line + line_feeds text.now < 2 ^ 64 }
        ensures same { IfOk result (λ found. IfSome found (λ rest.
            scan_all take self.old text.now ≡ scan_all take self.new rest.now)) }
        ensures shorter { IfOk result (λ found. IfSome found (λ rest. length rest.now < length text.now)) }
        ensures unchanged { IfOk result (λ found. IfNone found (self.new ≡ self.old)) }
        ensures text { self.new.comment ≡ None }
        ensures number { awaits_number self.new.found.place self.new.found.parts.kind ≡ true }
    {
        if !self.word.is_empty() {
            return Ok(None);
        }
        let Some((number, len)) = number_ahead(text) else {
            return Ok(None);
        };
        let (_, rest) = text.split_at(len);
        self.parser.take_number(number, self.line)?;
        Ok(Some(self.pass_separator(rest)))
    }

    /// Takes the numbers of a list at the front of a text outside a comment, as far as they are whole, each with the
    /// separator after it, and answers what is after them.
    #[inline(always)]
    fn numbers<'p>(&mut self, text: &'p [u8]) -> Result<&'p [u8], AllocError>
        requires text { self.old.comment ≡ None }
        requires number { awaits_number self.old.found.place self.old.found.parts.kind ≡ true }
        requires room { self.old.line + line_feeds text.now < 2 ^ 64 }
        ensures same { IfOk result (λ rest. scan_all take self.old text.now ≡ scan_all take self.new rest.now) }
        ensures within { IfOk result (λ rest. length rest.now ≤ length text.now) }
    {
        let mut rest = text;
        'numbers: while let Some(behind) = self.next_number(rest)? {
            rest = behind;
        }
        Ok(rest)
    }

    /// Takes numbers of a list at the front of a text outside a comment, if the first is whole; else the plain bytes
    /// there. Answers what is after them.
    #[inline(always)]
    fn number<'p>(&mut self, text: &'p [u8]) -> Result<&'p [u8], AllocError>
        requires text { self.old.comment ≡ None }
        requires number { awaits_number self.old.found.place self.old.found.parts.kind ≡ true }
        requires some { 1 ≤ plain_length text.now }
        requires room { self.old.line + line_feeds text.now < 2 ^ 64 }
        requires fits { FitsText self.old text.now }
        ensures same { IfOk result (λ rest. scan_all take self.old text.now ≡ scan_all take self.new rest.now) }
        ensures shorter { IfOk result (λ rest. length rest.now < length text.now) }
    {
        match self.next_number(text)? {
            Some(rest) => self.numbers(rest),
            None => self.plain_bytes(text),
        }
    }

    /// Passes over one blank or LF at the front of a text, if no word and no comment is open, and answers what is after
    /// it.
    #[inline(always)]
    #[tactic(auto, using(crate::proofs::Pieces::separator_steps))]
    fn pass_separator<'p>(&mut self, text: &'p [u8]) -> &'p [u8]
        requires { self.old.line + line_feeds text.now < 2 ^ 64 }
        ensures same { scan_all take self.old text.now ≡ scan_all take self.new result.now }
        ensures within { length result.now ≤ length text.now }
        ensures found { self.new.found ≡ self.old.found }
        ensures comment { self.new.comment ≡ self.old.comment }
    {
        if text.is_empty() {
            return text;
        }
        if self.comment.is_some() {
            return text;
        }
        if !self.word.is_empty() {
            return text;
        }
        let byte = text[0];
        let (_, rest) = text.split_at(1);
        if byte == b' ' {
            return rest;
        }
        if byte == b'\n' {
            self.line += 1;
            return rest;
        }
        text
    }

    /// Passes over the bytes at the front of a text that change nothing, if a comment is open, and answers what is
    /// after them.
    #[inline(always)]
    #[tactic(auto, using(crate::proofs::Pieces::comment_steps))]
    fn pass_comment<'p>(&self, text: &'p [u8]) -> &'p [u8]
        ensures same { scan_all take self.now text.now ≡ scan_all take self.now result.now }
        ensures within { length result.now ≤ length text.now }
    {
        if self.comment.is_none() {
            return text;
        }
        let (_, rest) = text.split_at(passed_length(text));
        rest
    }

    /// Takes the plain bytes at the front of a text, with the separator that ends them, or else its first byte, with
    /// those that change nothing after it in a comment, and answers what is after them.
    #[inline(always)]
    #[tactic(auto, using(crate::proofs::Pieces::later_same, std::proofs::lemmas::List::drop_more))]
    fn front<'p>(&mut self, text: &'p [u8]) -> Result<&'p [u8], AllocError>
        requires some { 1 ≤ length text.now }
        requires room { self.old.line + line_feeds text.now < 2 ^ 64 }
        requires fits { FitsText self.old text.now }
        ensures same { IfOk result (λ rest. scan_all take self.old text.now ≡ scan_all take self.new rest.now) }
        ensures shorter { IfOk result (λ rest. length rest.now < length text.now) }
    {
        let byte = text[0];
        if self.comment.is_none() && is_plain(byte) {
            if self.parser.awaits_number() {
                return self.number(text);
            }
            let rest = self.plain_bytes(text)?;
            return Ok(self.pass_separator(rest));
        }
        let (_, rest) = text.split_at(1);
        self.byte(byte)?;
        Ok(self.pass_comment(rest))
    }

    #[tactic(auto, using(crate::proofs::Pieces::none_left, crate::proofs::Pieces::no_bytes))]
    fn bytes(&mut self, piece: &[u8]) -> Result<(), AllocError>
        requires room { self.old.line + line_feeds piece.now < 2 ^ 64 }
        requires fits { FitsText self.old piece.now }
        ensures { OnOk result (self.new ≡ scan_all take self.old piece.now) }
    {
        let mut rest = piece;
        'text: while !rest.is_empty() {
            rest = self.front(rest)?;
        }
        Ok(())
    }

    #[tactic(auto, unfolding(crate::specs::Reading::outcome))]
    fn outcome(mut self) -> Result<Vec<Function<A>, A>, ReadFault>
        requires { FitsParse (end_word take self).found }
        ensures { Gives result (outcome self) }
    {
        self.end_word()?;
        self.parser.result_at_end(self.comment)
    }
}

/// Reads the code of a program that comes in pieces, as [`read`] does one that is there at once: what
/// counts are the pieces joined, wherever they are cut.
///
/// The first fault of a text is kept, and the pieces after it are passed over. If memory is refused
/// the reader has failed, and no later call succeeds.
#[derive(Drop)]
pub struct CodeReader<A: Allocator> {
    scanner: Scanner<A>,
    first_line: u64,
    size: usize,
    failed: bool,
}

impl<A: Allocator> Model for CodeReader<A> {
    ghost use Rattle.vcode_reader.specs.Reading.{ReaderState};

    ghost Value = { ReaderState };

    ghost use Rattle.std.specs.Coded.{codes};
    ghost use Rattle.vcode_reader.specs.ParseCode.{parse_code, scan_code, fed_code};

    ghost coded = { fed_code (scan_code (parse_code (Prim.hlevel codes) (Prim.hlevel codes) (Prim.hlevel codes)
        (Prim.hlevel codes) (Prim.hlevel codes) (Prim.hlevel codes)) (Prim.hlevel codes)) };

    ghost view = { λ r. record { scan = r.scanner; first_line = r.first_line; size = r.size; failed = r.failed } };

    ghost use Rattle.vcode_reader.specs.Reading.{IsOfBytes};

    ghost invariant = { λ r. IsOfBytes r.scanner r.first_line r.size r.failed };
}

impl<A: Allocator + Clone> CodeReader<A> {
    /// A reader of a text whose first line has this number, of which nothing has come.
    ///
    /// # Errors
    ///
    /// [`AllocError`] if its memory is refused.
    #[tactic(auto, unfolding(crate::specs::Scan::scan_all))]
    pub fn new(alloc: A, first_line: u64) -> Result<CodeReader<A>, AllocError>
        ensures come { IfOk result (λ r. HasCome r []) }
        ensures first_line { IfOk result (λ r. r.first_line ≡ first_line) }
        ensures line { IfOk result (λ r. r.scan.line ≡ first_line) }
        ensures size { IfOk result (λ r. r.size ≡ 0) }
    {
        Ok(CodeReader {
            scanner: Scanner::new(alloc, first_line)?,
            first_line,
            size: 0,
            failed: false,
        })
    }

    /// Takes the next piece of the text. The number of the line that is then open must fit, and at most
    /// [`MOST_CODE_BYTES`] may have come.
    ///
    /// # Errors
    ///
    /// [`AllocError`] if memory is refused, and from then on at each piece.
    #[tactic(auto, using(crate::proofs::Fed::fed_line))]
    pub fn feed(&mut self, piece: &[u8]) -> Result<(), AllocError>
        requires line { self.old.failed ≡ false → self.old.scan.line + line_feeds piece.now < 2 ^ 64 }
        requires size { self.old.failed ≡ false → self.old.size + length piece.now ≤ MOST_CODE_BYTES }
        // The bytes of the piece follow the bytes before.
        ensures fed { OnOk result ((before : List ℕ) → HasCome self.old before → HasCome self.new (before
            ++ piece.now)) }
        ensures first_line { self.new.first_line ≡ self.old.first_line }
        ensures line { OnOk result (self.new.scan.line ≡ self.old.scan.line + line_feeds piece.now) }
        ensures size { OnOk result (self.new.size ≡ self.old.size + length piece.now) }
        ensures failed { OnErr result (IsTrue self.new.failed) }
        ensures again { IsTrue self.old.failed → IsErr result }
    {
        if self.failed {
            return Err(AllocError);
        }
        let fed = self.scanner.bytes(piece);
        self.size += piece.len();
        if fed.is_err() {
            self.failed = true;
        }
        fed
    }

    /// The first fault of the text with its line, if the pieces so far have one. No further piece changes it.
    #[tactic(auto, using(crate::proofs::Fed::longer_text))]
    pub fn fault(&self) -> Option<(CodeFault, u64)>
        ensures found { result ≡ self.now.scan.found.fault }
        ensures stays { (fault : Fault) (bytes more : List ℕ) → result ≡ Some fault → HasCome self.now bytes
            → reading self.now.first_line (bytes ++ more) ≡ Err fault }
    {
        self.scanner.parser.fault()
    }

    /// The reading of the pieces.
    ///
    /// # Errors
    ///
    /// The first fault of the text with its line; `Memory` if memory is refused, or was in a piece.
    pub fn finish(self) -> Result<Program<A>, ReadFault>
        ensures answer { (bytes : List ℕ) → HasCome self bytes → Answers result (reading self.first_line bytes) }
        ensures failed { IsTrue self.failed → IsErrOf result Memory }
    {
        if self.failed {
            return Err(ReadFault::Memory);
        }
        match self.scanner.outcome() {
            Ok(functions) => Ok(Program::new(self.first_line, functions)?),
            Err(fault) => Err(fault),
        }
    }
}

/// Reads a program from the bytes of its code, whose first line has the number `first_line`.
///
/// The answer is the program that the grammar relates to the words of the text, or else the first fault
/// of the text with its line, or out of memory. Lines are counted on from `first_line`; the number of
/// the last must fit. The text has at most [`MOST_CODE_BYTES`].
#[tactic(auto, using(crate::proofs::Answers::is_answer))]
pub fn read<A: Allocator + Clone>(
    alloc: A,
    text: &[u8],
    first_line: u64,
) -> Result<Program<A>, ReadFault>
    requires line { first_line + line_feeds text.now < 2 ^ 64 }
    requires size { length text.now ≤ MOST_CODE_BYTES }
    ensures answer { Answers result (reading first_line text.now) }
    // What is answered is by the grammar.
    ensures grammar { IsAnswer result first_line text.now }
{
    let mut reader = CodeReader::new(alloc, first_line)?;
    reader.feed(text)?;
    reader.finish()
}

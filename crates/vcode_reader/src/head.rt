//! What a word begins.

ghost use Rattle.std.specs.Prelude.{◌≡◌};
ghost use Rattle.vcode_reader.specs.Heads.{head_of_length, head_longer, head_of};

use crate::keyword::{Folding, Keyword};
use vcode_base::{Arith, Comparison, Logic, StackMove};

/// What a word begins, at the place of an item of a function or of a function.
#[derive(Clone, Copy)]
pub enum Head {
    Func,
    Return,
    If,
    Else,
    Endif,
    Start(Keyword),
    /// Nothing.
    Other,
}

/// Words of one byte.
#[tactic(auto, unfolding(crate::specs::Heads::head_of_length, crate::specs::Heads::rows))]
fn of_one(word: &[u8]) -> Head
    ensures { result ≡ head_of_length 1 word.now }
{
    match word {
        b"+" => Head::Start(Keyword::Arith(Arith::Add)),
        b"-" => Head::Start(Keyword::Arith(Arith::Subtract)),
        b"*" => Head::Start(Keyword::Arith(Arith::Multiply)),
        b"/" => Head::Start(Keyword::Arith(Arith::Divide)),
        b"%" => Head::Start(Keyword::Arith(Arith::Remainder)),
        b"<" => Head::Start(Keyword::Compare(Comparison::Less)),
        b">" => Head::Start(Keyword::Compare(Comparison::Greater)),
        b"=" => Head::Start(Keyword::Compare(Comparison::Equal)),
        _ => Head::Other,
    }
}

/// Words of two bytes.
#[tactic(auto, unfolding(crate::specs::Heads::head_of_length, crate::specs::Heads::rows))]
fn of_two(word: &[u8]) -> Head
    ensures { result ≡ head_of_length 2 word.now }
{
    match word {
        b"IF" => Head::If,
        b"<=" => Head::Start(Keyword::Compare(Comparison::LessOrEqual)),
        b">=" => Head::Start(Keyword::Compare(Comparison::GreaterOrEqual)),
        b"!=" => Head::Start(Keyword::Compare(Comparison::NotEqual)),
        b"OR" => Head::Start(Keyword::Logic(Logic::Or)),
        _ => Head::Other,
    }
}

/// Words of three bytes.
#[tactic(auto, unfolding(crate::specs::Heads::head_of_length, crate::specs::Heads::rows))]
fn of_three(word: &[u8]) -> Head
    ensures { result ≡ head_of_length 3 word.now }
{
    match word {
        b"RET" => Head::Return,
        b"AND" => Head::Start(Keyword::Logic(Logic::And)),
        b"XOR" => Head::Start(Keyword::Logic(Logic::Xor)),
        b"NOT" => Head::Start(Keyword::Not),
        b"POP" => Head::Start(Keyword::Move(StackMove::Pop)),
        _ => Head::Other,
    }
}

/// Words of four bytes.
#[tactic(auto, unfolding(crate::specs::Heads::head_of_length, crate::specs::Heads::rows))]
fn of_four(word: &[u8]) -> Head
    ensures { result ≡ head_of_length 4 word.now }
{
    match word {
        b"FUNC" => Head::Func,
        b"ELSE" => Head::Else,
        b"DIST" => Head::Start(Keyword::Distribute),
        b"PACK" => Head::Start(Keyword::Pack),
        b"COPY" => Head::Start(Keyword::Move(StackMove::Copy)),
        b"CPOP" => Head::Start(Keyword::Move(StackMove::MoveToTop)),
        b"CALL" => Head::Start(Keyword::Call),
        _ => Head::Other,
    }
}

/// Words of five bytes.
#[tactic(auto, unfolding(crate::specs::Heads::head_of_length, crate::specs::Heads::rows))]
fn of_five(word: &[u8]) -> Head
    ensures { result ≡ head_of_length 5 word.now }
{
    match word {
        b"ENDIF" => Head::Endif,
        b"CONST" => Head::Start(Keyword::Const),
        b"INDEX" => Head::Start(Keyword::Index),
        _ => Head::Other,
    }
}

/// Words of six bytes.
#[tactic(auto, unfolding(crate::specs::Heads::head_of_length, crate::specs::Heads::rows))]
#[inline(never)]
fn of_six(word: &[u8]) -> Head
    ensures { result ≡ head_of_length 6 word.now }
{
    if word == b"LSHIFT".as_slice() {
        Head::Start(Keyword::Arith(Arith::ShiftLeft))
    } else if word == b"RSHIFT".as_slice() {
        Head::Start(Keyword::Arith(Arith::ShiftRight))
    } else if word == b"SELECT".as_slice() {
        Head::Start(Keyword::Select)
    } else if word == b"I_TO_B".as_slice() {
        Head::Start(Keyword::IntToBool)
    } else if word == b"B_TO_I".as_slice() {
        Head::Start(Keyword::BoolToInt)
    } else if word == b"+_SCAN".as_slice() {
        Head::Start(Keyword::Scan(Folding::Sum))
    } else if word == b"*_SCAN".as_slice() {
        Head::Start(Keyword::Scan(Folding::Product))
    } else {
        Head::Other
    }
}

/// Words of seven bytes.
#[tactic(auto, unfolding(crate::specs::Heads::head_of_length, crate::specs::Heads::rows))]
#[inline(never)]
fn of_seven(word: &[u8]) -> Head
    ensures { result ≡ head_of_length 7 word.now }
{
    if word == b"OR_SCAN".as_slice() {
        Head::Start(Keyword::Scan(Folding::Logic(Logic::Or)))
    } else if word == b"PERMUTE".as_slice() {
        Head::Start(Keyword::Permute)
    } else if word == b"EXTRACT".as_slice() {
        Head::Start(Keyword::Extract)
    } else if word == b"REPLACE".as_slice() {
        Head::Start(Keyword::Replace)
    } else if word == b"LENGTHS".as_slice() {
        Head::Start(Keyword::Lengths)
    } else {
        Head::Other
    }
}

/// Words of eight bytes.
#[tactic(auto, unfolding(crate::specs::Heads::head_of_length, crate::specs::Heads::rows))]
#[inline(never)]
fn of_eight(word: &[u8]) -> Head
    ensures { result ≡ head_of_length 8 word.now }
{
    if word == b"MAX_SCAN".as_slice() {
        Head::Start(Keyword::Scan(Folding::Max))
    } else if word == b"MIN_SCAN".as_slice() {
        Head::Start(Keyword::Scan(Folding::Min))
    } else if word == b"AND_SCAN".as_slice() {
        Head::Start(Keyword::Scan(Folding::Logic(Logic::And)))
    } else if word == b"XOR_SCAN".as_slice() {
        Head::Start(Keyword::Scan(Folding::Logic(Logic::Xor)))
    } else if word == b"+_REDUCE".as_slice() {
        Head::Start(Keyword::Reduce(Folding::Sum))
    } else if word == b"*_REDUCE".as_slice() {
        Head::Start(Keyword::Reduce(Folding::Product))
    } else if word == b"BPERMUTE".as_slice() {
        Head::Start(Keyword::BackPermute)
    } else if word == b"DPERMUTE".as_slice() {
        Head::Start(Keyword::DefaultPermute)
    } else {
        Head::Other
    }
}

/// Words of nine to eleven bytes.
#[tactic(auto, unfolding(crate::specs::Heads::head_longer, crate::specs::Heads::rows))]
#[inline(never)]
fn of_more(word: &[u8]) -> Head
    ensures { result ≡ head_longer 8 word.now }
{
    if word == b"MAX_REDUCE".as_slice() {
        Head::Start(Keyword::Reduce(Folding::Max))
    } else if word == b"MIN_REDUCE".as_slice() {
        Head::Start(Keyword::Reduce(Folding::Min))
    } else if word == b"AND_REDUCE".as_slice() {
        Head::Start(Keyword::Reduce(Folding::Logic(Logic::And)))
    } else if word == b"OR_REDUCE".as_slice() {
        Head::Start(Keyword::Reduce(Folding::Logic(Logic::Or)))
    } else if word == b"XOR_REDUCE".as_slice() {
        Head::Start(Keyword::Reduce(Folding::Logic(Logic::Xor)))
    } else if word == b"MAKE_SEGDES".as_slice() {
        Head::Start(Keyword::MakeSegdes)
    } else {
        Head::Other
    }
}

/// What a word begins.
#[tactic(auto, using(crate::proofs::Spelling::head_rows))]
pub(crate) fn head_of(word: &[u8]) -> Head
    ensures { result ≡ head_of word.now }
{
    match word.len() {
        0 => Head::Other,
        1 => of_one(word),
        2 => of_two(word),
        3 => of_three(word),
        4 => of_four(word),
        5 => of_five(word),
        6 => of_six(word),
        7 => of_seven(word),
        8 => of_eight(word),
        _ => of_more(word),
    }
}

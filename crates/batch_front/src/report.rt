//! The report, line by line.

ghost use Rattle.std.specs.Prelude.{◌≡◌, ◌<◌, decimal, drop, length, map};
ghost use Rattle.std.specs.Fmt.{signed_decimal};
ghost use Rattle.std.specs.List.{flat_map, join_with_byte};
ghost use Rattle.batch_front.specs.Pages.{Puts};
ghost use Rattle.batch_front.specs.Reports.{count_text, end_text, fault_text, job_text, kind_text};
ghost use Rattle.batch_front.specs.Reports.{next_word_text, outcome_text, used_text, value_text, word_text};

use crate::device::Device;
use crate::page::{Page, put};
use itoa::Buffer;
use std::alloc::Allocator;
use std::io::Write;
use vcode_base::{Kind, Outcome, SharedWords, Value, Values};

/// How many words of a result are copied at a time, out of the form in which they are kept.
const ROOM: usize = 64;

/// Puts a number.
fn put_number<W: Write>(page: &mut Page, writer: &mut Device<W>, number: u64)
    ensures { Puts W.contents page.old writer.old page.new writer.new (decimal number) }
{
    let mut buffer = Buffer::new();
    put(page, writer, buffer.format(number).as_bytes());
}

/// Puts a number with its sign.
#[inline(always)]
fn put_signed<W: Write>(page: &mut Page, writer: &mut Device<W>, number: i64)
    ensures { Puts W.contents page.old writer.old page.new writer.new (signed_decimal number) }
{
    let mut buffer = Buffer::new();
    put(page, writer, buffer.format(number).as_bytes());
}

/// The word that begins the line of a result.
fn kind_text(kind: Kind) -> &'static str
    ensures { result.now ≡ kind_text kind }
{
    match kind {
        Kind::Int => "INT",
        Kind::Bool => "BOOL",
        Kind::Segdes => "SEGDES",
    }
}

/// Puts a word of a vector of this kind. The loop over the words makes no call for it.
#[inline(always)]
fn put_word<W: Write>(page: &mut Page, writer: &mut Device<W>, kind: Kind, word: i64)
    ensures { Puts W.contents page.old writer.old page.new writer.new (word_text kind word) }
{
    match kind {
        Kind::Int | Kind::Segdes => put_signed(page, writer, word),
        Kind::Bool => {
            if word == 1 {
                put(page, writer, b"T")
            } else {
                put(page, writer, b"F")
            }
        }
    }
}

/// Puts a blank and a word of a vector of this kind.
fn put_next_word<W: Write>(page: &mut Page, writer: &mut Device<W>, kind: Kind, word: i64)
    ensures { Puts W.contents page.old writer.old page.new writer.new (next_word_text kind word) }
{
    put(page, writer, b" ");
    put_word(page, writer, kind, word);
}

/// Puts words of a vector of this kind, each after a blank.
fn put_next_words<W: Write>(page: &mut Page, writer: &mut Device<W>, kind: Kind, words: &[i64])
    ensures { Puts W.contents page.old writer.old page.new writer.new (flat_map (next_word_text kind) words.now) }
{
    for word in words {
        put_next_word(page, writer, kind, *word);
    }
}

/// Puts the words of a vector after its first, each after a blank. They come by way of `room`, as many at a time as it
/// has room for.
fn put_other_words<A: Allocator, W: Write>(
    page: &mut Page,
    writer: &mut Device<W>,
    kind: Kind,
    words: &SharedWords<A>,
    room: &mut [i64; ROOM],
)
    requires { 0 < length words.now }
    ensures { Puts W.contents page.old writer.old page.new writer.new (flat_map (next_word_text kind)
        (drop 1 words.now)) }
{
    let mut done = 1;
    'words: while done < words.len() {
        let part = &mut room[..(words.len() - done).min(ROOM)];
        words.copy_from(done, part);
        put_next_words(page, writer, kind, part);
        done += part.len();
    }
}

/// Puts the words of a vector of this kind, with a blank between each two.
fn put_words<A: Allocator, W: Write>(
    page: &mut Page,
    writer: &mut Device<W>,
    kind: Kind,
    words: &SharedWords<A>,
    room: &mut [i64; ROOM],
)
    ensures { Puts W.contents page.old writer.old page.new writer.new
        (join_with_byte 32 (map (word_text kind) words.now)) }
{
    if words.len() == 0 {
        return;
    }
    let mut first = [0];
    words.copy_from(0, &mut first);
    put_word(page, writer, kind, first[0]);
    put_other_words(page, writer, kind, words, room);
}

/// Puts the line of a result. Its words come by way of `room`.
fn put_value<A: Allocator, W: Write>(
    page: &mut Page,
    writer: &mut Device<W>,
    value: &Value<SharedWords<A>>,
    room: &mut [i64; ROOM],
)
    ensures { Puts W.contents page.old writer.old page.new writer.new (value_text value.now) }
{
    put(page, writer, kind_text(value.kind).as_bytes());
    put(page, writer, b" (");
    put_words(page, writer, value.kind, &value.words, room);
    put(page, writer, b")\n");
}

/// Puts the lines of results, from the bottom of the stack to its top.
fn put_values<A: Allocator, W: Write>(
    page: &mut Page,
    writer: &mut Device<W>,
    values: &[Value<SharedWords<A>>],
)
    ensures { Puts W.contents page.old writer.old page.new writer.new (flat_map value_text values.now) }
{
    let mut room = [0; ROOM];
    for value in values {
        put_value(page, writer, value, &mut room);
    }
}

/// Puts a line of this head, with the line of a fault and its name.
pub(crate) fn put_fault<W: Write>(
    page: &mut Page,
    writer: &mut Device<W>,
    head: &[u8],
    line: u64,
    name: &str,
)
    ensures { Puts W.contents page.old writer.old page.new writer.new (fault_text head.now line name.now) }
{
    put(page, writer, head);
    put(page, writer, b"line ");
    put_number(page, writer, line);
    put(page, writer, b" ");
    put(page, writer, name.as_bytes());
    put(page, writer, b"\n");
}

/// Puts a blank, a number and what it counts.
fn put_count<W: Write>(page: &mut Page, writer: &mut Device<W>, number: u64, unit: &str)
    ensures { Puts W.contents page.old writer.old page.new writer.new (count_text number unit.now) }
{
    put(page, writer, b" ");
    put_number(page, writer, number);
    put(page, writer, b" ");
    put(page, writer, unit.as_bytes());
}

/// Puts how a job ended.
pub(crate) fn put_outcome<A: Allocator, W: Write>(
    page: &mut Page,
    writer: &mut Device<W>,
    outcome: &Outcome<Values<A>>,
)
    ensures { Puts W.contents page.old writer.old page.new writer.new (outcome_text outcome.now) }
{
    match outcome {
        Outcome::Returned(values) => {
            put(page, writer, b"RETURNED\n");
            put_values(page, writer, values.as_slice())
        }
        Outcome::Fault(fault, line) => put_fault(page, writer, b"FAULT ", *line, fault.text()),
        Outcome::Memory(fault, line) => put_fault(page, writer, b"MEMORY ", *line, fault.text()),
        Outcome::Budget => put(page, writer, b"BUDGET\n"),
    }
}

/// Puts what a job used.
pub(crate) fn put_used<W: Write>(
    page: &mut Page,
    writer: &mut Device<W>,
    instructions: u64,
    words: usize,
)
    ensures { Puts W.contents page.old writer.old page.new writer.new (used_text instructions words) }
{
    put(page, writer, b"USED");
    put_count(page, writer, instructions, "instructions");
    put_count(page, writer, words as u64, "words");
    put(page, writer, b"\n");
}

/// Puts what begins the lines of a job.
pub(crate) fn put_job<W: Write>(page: &mut Page, writer: &mut Device<W>, number: u64, name: &[u8])
    ensures { Puts W.contents page.old writer.old page.new writer.new (job_text number name.now) }
{
    put(page, writer, b"JOB ");
    put_number(page, writer, number);
    put(page, writer, b" ");
    put(page, writer, name);
    put(page, writer, b" ");
}

/// Puts the last line.
pub(crate) fn put_end<W: Write>(page: &mut Page, writer: &mut Device<W>, jobs: u64, refused: u64)
    ensures { Puts W.contents page.old writer.old page.new writer.new (end_text jobs refused) }
{
    put(page, writer, b"END");
    put_count(page, writer, jobs, "jobs");
    put_count(page, writer, refused, "refused");
    put(page, writer, b"\n");
}

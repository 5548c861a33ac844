//! What stands in a batch for a file.

ghost use Rattle.std.specs.Prelude.{◌≡◌, ◌≤◌, ◌++◌, [], ◌∷◌, if◌then◌else◌, length, IfOk, OnOk};
ghost use Rattle.vcode_base.specs.Lines.{line_feeds};
ghost use Rattle.vcode_base.specs.LineWords.{is_separator};
ghost use Rattle.batch_packer.specs.Joins.{blank_to_feed, ruled_text, text_of, with_last_feed, without_first_words};

use std::alloc::{AllocError, Allocator};
use vcode_base::Rule;

/// The LFs of a text.
pub(crate) fn line_feeds(text: &[u8]) -> usize
    ensures count { result ≡ line_feeds text.now }
    ensures few { result ≤ length text.now }
{
    let mut count = 0;
    for byte in text {
        if *byte == b'\n' {
            count += 1;
        }
    }
    count
}

/// What stands in a batch of this rule for such a file: its lines without its rule line, each with its LF.
pub(crate) fn text_of<A: Allocator>(
    alloc: A,
    rule: Rule,
    bytes: &[u8],
) -> Result<Vec<u8, A>, AllocError>
    ensures { IfOk result (λ text. text.items ≡ text_of rule bytes.now) }
{
    let mut text = Vec::new(alloc);
    match rule {
        Rule::First => text.extend_from_slice(bytes)?,
        Rule::Second => leave_first_words(&mut text, bytes)?,
    }
    end_line(&mut text)?;
    Ok(text)
}

/// Ends the last line by an LF, if there is one and it lacks its LF.
fn end_line<A: Allocator>(text: &mut Vec<u8, A>) -> Result<(), AllocError>
    ensures { OnOk result (text.new.items ≡ with_last_feed text.old.items) }
{
    if is_open(text) {
        text.push(b'\n')?;
    }
    Ok(())
}

/// Whether a text has a last line that lacks its LF.
#[tactic(auto, using(crate::proofs::Texts::last_is), unfolding(crate::specs::Joins::with_last_feed))]
fn is_open(text: &[u8]) -> bool
    ensures { with_last_feed text.now ≡ (if result then text.now ++ 10 ∷ [] else text.now) }
{
    if text.is_empty() {
        return false;
    }
    text[text.len() - 1] != b'\n'
}

/// Appends these bytes to a text, with blanks for the first line that has words.
#[tactic(auto, using(crate::proofs::Texts::steps), unfolding(crate::specs::Joins::without_first_words))]
fn leave_first_words<A: Allocator>(text: &mut Vec<u8, A>, bytes: &[u8]) -> Result<(), AllocError>
    ensures { OnOk result (text.new.items ≡ text.old.items ++ without_first_words bytes.now) }
{
    for (i, byte) in bytes.iter().enumerate() {
        if !is_separator(*byte) {
            leave_line(text, &bytes[i..])?;
            return Ok(());
        }
        text.push(*byte)?;
    }
    Ok(())
}

/// Appends these bytes to a text, with blanks for what comes before the first LF.
#[tactic(auto, using(crate::proofs::Texts::steps), unfolding(crate::specs::Joins::blank_to_feed))]
fn leave_line<A: Allocator>(text: &mut Vec<u8, A>, bytes: &[u8]) -> Result<(), AllocError>
    ensures { OnOk result (text.new.items ≡ text.old.items ++ blank_to_feed bytes.now) }
{
    for (i, byte) in bytes.iter().enumerate() {
        if *byte == b'\n' {
            text.extend_from_slice(&bytes[i..])?;
            return Ok(());
        }
        text.push(b' ')?;
    }
    Ok(())
}

/// Whether a byte stands between words.
fn is_separator(byte: u8) -> bool
    ensures { result ≡ is_separator byte }
{
    byte == b' ' || byte == b'\t' || byte == b'\r' || byte == b'\n'
}

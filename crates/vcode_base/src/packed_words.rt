//! Words in as few bytes as they need.

ghost use Rattle.std.specs.Prelude.{◌≡◌, ◌+◌, ◌<◌, ◌≤◌, length, map, take, drop, IfOk};
ghost use Rattle.std.specs.List.{All};
ghost use Rattle.vcode_base.specs.PackedWords.{height, high_of, low_of, magnitude, three_byte_words, words_of, IsBelow};

use std::alloc::{AllocError, Allocator};

/// Fewer words than this take 8 bytes each. For them a look at each word and a second list cost more than they save.
const FEW: usize = 64;

/// How many words of one byte are negative, and how many are not.
const BYTE_HALF: u64 = 128;

/// How many words of three bytes are negative, and how many are not.
const THREE_BYTE_HALF: u64 = 8_388_608;

/// How many numbers two bytes can be.
const TWO_BYTES: u64 = 65_536;

/// Words in order, each in as few bytes as the word that takes the most.
#[derive(Debug, Drop)]
pub(crate) enum PackedWords<A: Allocator> {
    /// Words from -128 to 127, in one byte each.
    Bytes(Vec<i8, A>),
    /// Words from -8,388,608 to 8,388,607. The number that a word is above the least of these has three bytes: the
    /// highest is in `highs`, and the other two in `lows`.
    ThreeBytes {
        highs: Vec<u8, A>,
        lows: Vec<u16, A>,
    },
    /// Any words.
    Whole(Vec<i64, A>),
}

impl<A: Allocator> PackedWords<A> {
    /// A copy of these words.
    ///
    /// # Errors
    ///
    /// [`AllocError`] if memory for them was refused.
    #[tactic(auto, using(crate::proofs::PackedLemmas::words_are))]
    pub(crate) fn copy_of(alloc: A, words: &[i64]) -> Result<PackedWords<A>, AllocError>
    where
        A: Clone,
        ensures { IfOk result (λ packed. words_of packed ≡ words.now) }
    {
        if words.len() < FEW {
            return Ok(PackedWords::Whole(words.to_vec(alloc)?));
        }
        let bound = bound_of(words);
        if bound < BYTE_HALF {
            return Ok(PackedWords::Bytes(bytes_of(alloc, words)?));
        }
        if bound < THREE_BYTE_HALF {
            let highs = highs_of(alloc.clone()?, words)?;
            let lows = lows_of(alloc, words)?;
            return Ok(PackedWords::ThreeBytes { highs, lows });
        }
        Ok(PackedWords::Whole(words.to_vec(alloc)?))
    }

    /// How many words there are.
    #[tactic(auto, using(crate::proofs::PackedLemmas::words_long))]
    pub(crate) fn len(&self) -> usize
        ensures { result ≡ length (words_of self.now) }
    {
        match self {
            PackedWords::Bytes(bytes) => bytes.len(),
            PackedWords::ThreeBytes { highs, lows } => highs.len().min(lows.len()),
            PackedWords::Whole(words) => words.len(),
        }
    }

    /// Fills a list with the words from this place on.
    #[tactic(auto, using(crate::proofs::PackedLemmas::packed_steps))]
    pub(crate) fn copy_from(&self, from: usize, into: &mut [i64])
        requires { from + length into.old ≤ length (words_of self.now) }
        ensures { into.new ≡ take (length into.old) (drop from (words_of self.now)) }
    {
        match self {
            PackedWords::Bytes(bytes) => widen(&bytes[from..from + into.len()], into),
            PackedWords::ThreeBytes { highs, lows } => join_from(highs, lows, from, into),
            PackedWords::Whole(words) => into.copy_from_slice(&words[from..from + into.len()]),
        }
    }
}

/// How many numbers are before a word, counted from 0 up or from -1 down. For a word of one byte it is below
/// `BYTE_HALF`, and for one of three bytes below `THREE_BYTE_HALF`.
fn magnitude_of(word: i64) -> u64
    ensures { result ≡ magnitude word }
{
    if word < 0 {
        (-1 - word) as u64
    } else {
        word as u64
    }
}

/// A number that no word's magnitude passes. It has no more bits than the greatest of them.
#[tactic(auto, using(crate::proofs::PackedLemmas::bound_steps))]
fn bound_of(words: &[i64]) -> u64
    ensures { All (λ w. magnitude w ≤ result) words.now }
{
    let mut bits = 0;
    for word in words {
        bits |= magnitude_of(*word);
    }
    bits
}

/// The words, each in one byte.
fn bytes_of<A: Allocator>(alloc: A, words: &[i64]) -> Result<Vec<i8, A>, AllocError>
    requires { All (IsBelow 128) words.now }
    ensures { IfOk result (λ bytes. bytes.items ≡ words.now) }
{
    let mut bytes = vec![in alloc; 0; words.len()]?;
    fill_bytes(words, &mut bytes);
    Ok(bytes)
}

/// The highest of the three bytes of each word.
fn highs_of<A: Allocator>(alloc: A, words: &[i64]) -> Result<Vec<u8, A>, AllocError>
    requires { All (IsBelow 8388608) words.now }
    ensures { IfOk result (λ highs. highs.items ≡ map high_of words.now) }
{
    let mut highs = vec![in alloc; 0; words.len()]?;
    fill_highs(words, &mut highs);
    Ok(highs)
}

/// The other two of the three bytes of each word.
fn lows_of<A: Allocator>(alloc: A, words: &[i64]) -> Result<Vec<u16, A>, AllocError>
    requires { All (IsBelow 8388608) words.now }
    ensures { IfOk result (λ lows. lows.items ≡ map low_of words.now) }
{
    let mut lows = vec![in alloc; 0; words.len()]?;
    fill_lows(words, &mut lows);
    Ok(lows)
}

/// Writes each word in one byte.
fn fill_bytes(words: &[i64], out: &mut [i8])
    requires fit { All (IsBelow 128) words.now }
    requires room { length out.old ≡ length words.now }
    ensures { out.new ≡ words.now }
{
    for i in 0..out.len() {
        out[i] = words[i] as i8;
    }
}

/// Writes the highest of the three bytes of each word.
fn fill_highs(words: &[i64], out: &mut [u8])
    requires fit { All (IsBelow 8388608) words.now }
    requires room { length out.old ≡ length words.now }
    ensures { out.new ≡ map high_of words.now }
{
    for i in 0..out.len() {
        out[i] = (height_of(words[i]) / TWO_BYTES) as u8;
    }
}

/// Writes the other two of the three bytes of each word.
fn fill_lows(words: &[i64], out: &mut [u16])
    requires fit { All (IsBelow 8388608) words.now }
    requires room { length out.old ≡ length words.now }
    ensures { out.new ≡ map low_of words.now }
{
    for i in 0..out.len() {
        out[i] = (height_of(words[i]) % TWO_BYTES) as u16;
    }
}

/// How far a word of three bytes is above the least of them.
fn height_of(word: i64) -> u64
    requires { IsBelow 8388608 word }
    ensures { result ≡ height word }
{
    (word + THREE_BYTE_HALF as i64) as u64
}

/// Writes the words that are these bytes.
fn widen(bytes: &[i8], out: &mut [i64])
    requires { length out.old ≡ length bytes.now }
    ensures { out.new ≡ bytes.now }
{
    for i in 0..out.len() {
        out[i] = i64::from(bytes[i]);
    }
}

/// Writes the words from this place on, of which these are the high and the low parts.
#[tactic(auto, using(crate::proofs::PackedLemmas::packed_steps))]
fn join_from(highs: &[u8], lows: &[u16], from: usize, out: &mut [i64])
    requires high_parts { from + length out.old ≤ length highs.now }
    requires low_parts { from + length out.old ≤ length lows.now }
    ensures { out.new ≡ take (length out.old) (drop from (three_byte_words highs.now lows.now)) }
{
    let end = from + out.len();
    join(&highs[from..end], &lows[from..end], out);
}

/// Writes the words of these high and low parts.
#[tactic(auto, using(crate::proofs::PackedLemmas::words_made))]
fn join(highs: &[u8], lows: &[u16], out: &mut [i64])
    requires high_parts { length out.old ≡ length highs.now }
    requires low_parts { length out.old ≡ length lows.now }
    ensures { out.new ≡ three_byte_words highs.now lows.now }
{
    for i in 0..out.len() {
        let height = i64::from(highs[i]) * TWO_BYTES as i64 + i64::from(lows[i]);
        out[i] = height - THREE_BYTE_HALF as i64;
    }
}

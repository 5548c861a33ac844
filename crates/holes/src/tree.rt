//! A tree of fixed height over the words of a region.
//!
//! A leaf has four bitmaps, and the number of leaves is a power of two. The nodes are in one list: the root is at 1,
//! the parts of the node at `index` are at `2 * index` and `2 * index + 1`, and the node of the leaf `k` is at
//! `leaves + k`. Some leaves that follow one another may have changed after the nodes were joined. Eight leaves are a
//! block. The nodes below a block whose words are all free, or all not free, needn't be right.

ghost use Rattle.std.specs.Prelude.{◌≡◌, ℕ, ◌+◌, ◌-◌, ◌*◌, ◌/◌, ◌^◌, ◌<◌, ◌≤◌, ◌↔◌, ◌⊎◌, List, replicate, length};
ghost use Rattle.std.specs.Prelude.{IfSome, IfNone, IsNone, IsTrue, true, false};
ghost use Rattle.holes.specs.FreeWords.{widest, hole_count};
ghost use Rattle.holes.specs.Tree.{IsTree, IsTreeBeside, IsJoining, IsLevelWritten, AreWrittenBetween, IsWritten};
ghost use Rattle.holes.specs.Tree.{AreSameBesideLeaves, IsNode, NoneBelow, NoneBelowBeside, IsFilled};
ghost use Rattle.holes.specs.Tree.{AreOpened, AreTwoLeaves, IsBlockWritten, IsPowerOfTwo, leaf_count, leaf_words};
ghost use Rattle.holes.specs.Tree.{lowest_fit, node_at, summary};
ghost use Rattle.holes.specs.Tree.{words_of, words_between, words_from, word_at};

use crate::bitmap::{self, WORDS};
use crate::summary::Summary;

/// The bitmaps of a leaf.
pub(crate) const LEAF: usize = 4;

/// The words of a leaf.
pub(crate) const LEAF_WORDS: usize = LEAF * WORDS;

/// The leaves of a block. The nodes below a block of which all words are free, or none is, are hidden: what they know
/// needn't be right. They are written before a word of the block changes.
const BLOCK: usize = 8;

/// How many leaves may have changed before nodes are joined. A range of words over more leaves is long.
const NEAR: usize = 3;

/// The bitmaps that are looked at before nodes are joined.
const LOOK: usize = 8;

/// Writes a node at the indices `first..end`.
fn write(nodes: &mut [Summary], first: usize, end: usize, node: Summary)
    requires order { first ≤ end }
    requires within { end ≤ length nodes.old }
    ensures { IsWritten nodes.old nodes.new first end node }
{
    if first == end {
        return;
    }
    nodes[first] = node;
    // A copy of a node of the list is one store. A copy of the parameter is a store for each field.
    for index in first + 1..end {
        nodes[index] = nodes[first];
    }
}

/// Makes the words `from..to` of one bitmap free or not free.
fn fill_bitmap(bits: &mut [u64], index: usize, from: usize, to: usize, value: bool)
    requires some { from < to }
    requires within { to ≤ 64 }
    requires index { index < length bits.old }
    requires small { 64 * length bits.old < 2 ^ 32 }
    ensures { IsFilled bits.old bits.new (64 * index + from) (to - from) value }
{
    bits[index] = bitmap::with_range(bits[index], from, to, value);
}

/// Makes all words of the bitmaps `first..end` free or not free.
#[tactic(auto, using(crate::proofs::Filling::fills))]
fn fill_bitmaps(bits: &mut [u64], first: usize, end: usize, value: bool)
    requires order { first ≤ end }
    requires within { end ≤ length bits.old }
    requires small { 64 * length bits.old < 2 ^ 32 }
    ensures { IsFilled bits.old bits.new (64 * first) (64 * (end - first)) value }
{
    let bitmaps = &mut bits[first..end];
    if value {
        bitmaps.fill(u64::MAX);
    } else {
        bitmaps.fill(0);
    }
}

/// Makes the words `place..place + len` free or not free.
fn fill_words(bits: &mut [u64], place: usize, len: usize, value: bool)
    requires some { 1 ≤ len }
    requires within { place + len ≤ 64 * length bits.old }
    requires small { 64 * length bits.old < 2 ^ 32 }
    ensures { IsFilled bits.old bits.new place len value }
{
    let end = place + len;
    let first = place / WORDS;
    let last = (end - 1) / WORDS;
    let from = place - first * WORDS;
    let to = end - last * WORDS;
    if first == last {
        fill_bitmap(bits, first, from, to, value);
        return;
    }
    fill_bitmap(bits, first, from, WORDS, value);
    fill_bitmaps(bits, first + 1, last, value);
    fill_bitmap(bits, last, 0, to, value);
}

/// Makes one word of a bitmap free or not free.
#[inline(always)]
fn fill_word(bits: &mut [u64], index: usize, word: usize, value: bool)
    requires within { word < 64 }
    requires index { index < length bits.old }
    requires small { 64 * length bits.old < 2 ^ 32 }
    ensures { IsFilled bits.old bits.new (64 * index + word) 1 value }
{
    bits[index] = bitmap::with_word(bits[index], word, value);
}

/// Makes one word free.
#[inline(always)]
pub(crate) fn give_word(bits: &mut [u64], place: usize)
    requires within { place < 64 * length bits.old }
    requires small { 64 * length bits.old < 2 ^ 32 }
    ensures { IsFilled bits.old bits.new place 1 true }
{
    fill_word(bits, place / WORDS, place % WORDS, true);
}

/// Takes the lowest free word. None is free before the bitmap `near`. The answer is None if this bitmap has none.
#[inline(always)]
#[tactic(auto, using(crate::proofs::Near::lowest_near))]
pub(crate) fn take_lowest(bits: &mut [u64], near: usize) -> Option<usize>
    requires index { near < length bits.old }
    requires small { 64 * length bits.old < 2 ^ 32 }
    requires none_below { NoneBelow bits.old (64 * near) }
    ensures bitmap { IfSome result (λ place. place / 64 ≡ near) }
    ensures free { IfSome result (λ place. 1 ≤ widest (words_of bits.old)) }
    ensures lowest { IfSome result (λ place. place ≡ lowest_fit 1 (words_of bits.old)) }
    ensures taken { IfSome result (λ place. IsFilled bits.old bits.new place 1 false) }
    ensures unchanged { IfNone result (bits.new ≡ bits.old) }
{
    let bitmap = bits[near];
    if bitmap == 0 {
        return None;
    }
    let word = bitmap.trailing_zeros() as usize;
    fill_word(bits, near, word, false);
    Some(near * WORDS + word)
}

/// The summary of the words of the bitmaps `first..end`.
#[tactic(auto, using(crate::proofs::Near::summaries))]
pub(crate) fn summary(bits: &[u64], first: usize, end: usize) -> Summary
    requires order { first ≤ end }
    requires within { end ≤ length bits.now }
    requires small { 64 * length bits.now < 2 ^ 32 }
    ensures { result ≡ summary (words_between bits.now first end) }
{
    let mut all = Summary::EMPTY;
    for index in first..end {
        let bitmap = bits[index];
        all = if bitmap == 0 {
            all.join(Summary::TAKEN)
        } else {
            all.join(bitmap::summary(bitmap))
        };
    }
    all
}

/// The summary of a leaf of which all words are free or not free.
fn alike(value: bool) -> Summary
    ensures { result ≡ summary (replicate 256 value) }
{
    if value {
        Summary {
            front: LEAF_WORDS as u32,
            back: LEAF_WORDS as u32,
            longest: LEAF_WORDS as u32,
            whole: true,
        }
    } else {
        Summary::TAKEN
    }
}

/// The nodes of the leaves `first..end` follow their bitmaps.
#[inline(always)]
fn join_leaves(bits: &[u64], nodes: &mut [Summary], first: usize, end: usize)
    requires within { end ≤ leaf_count nodes.old }
    requires bitmaps { length bits.now ≡ 4 * leaf_count nodes.old }
    requires small { 64 * length bits.now < 2 ^ 32 }
    ensures leaves { (leaf : ℕ) → first ≤ leaf → leaf < end →
        node_at nodes.new (leaf_count nodes.old + leaf) ≡ summary (leaf_words bits.now leaf) }
    ensures beside { AreSameBesideLeaves nodes.old nodes.new first end }
{
    let leaves = nodes.len() / 2;
    for leaf in first..end {
        nodes[leaves + leaf] = summary(bits, leaf * LEAF, leaf * LEAF + LEAF);
    }
}

/// Joins the parts of a node and of each above it, up to the first that doesn't change.
#[tactic(auto, using(crate::proofs::Joining::steps))]
fn join_path(nodes: &mut [Summary], index: usize)
    requires within { 2 * index + 1 < length nodes.old }
    ensures { (bits : List ℕ) → IsJoining bits nodes.old index index → IsTree bits nodes.new }
{
    let mut index = index;
    while index > 0 {
        let joined = nodes[2 * index].join(nodes[2 * index + 1]);
        if nodes[index] == joined {
            return;
        }
        nodes[index] = joined;
        index /= 2;
    }
}

/// Joins the parts of each node above two of one depth, up to the root or to a node that doesn't change.
#[tactic(auto, using(crate::proofs::Joining::steps))]
fn join_above(nodes: &mut [Summary], first: usize, last: usize)
    requires within { 2 * (last / 2) + 1 < length nodes.old }
    requires order { first ≤ last }
    ensures { (bits : List ℕ) → IsJoining bits nodes.old (first / 2) (last / 2) → IsTree bits nodes.new }
{
    let mut first = first / 2;
    let mut last = last / 2;
    while first < last {
        nodes[first] = nodes[2 * first].join(nodes[2 * first + 1]);
        nodes[last] = nodes[2 * last].join(nodes[2 * last + 1]);
        first /= 2;
        last /= 2;
    }
    join_path(nodes, last);
}

/// Writes a node at the indices between two. If these are far apart and `side` is more than one, so that nodes of their
/// depth lie below blocks, it writes only those nearer than `side` to one of the two.
fn write_level(nodes: &mut [Summary], first: usize, last: usize, side: usize, node: Summary)
    requires order { first < last }
    requires within { last ≤ length nodes.old }
    requires side { side ≤ 8 }
    ensures { IsLevelWritten nodes.old nodes.new first last side node }
{
    if side > 1 && last - first > 4 * side {
        write(nodes, first + 1, first + side, node);
        write(nodes, last - side + 1, last, node);
    } else {
        write(nodes, first + 1, last, node);
    }
}

/// Writes the nodes between two leaves, of which all words are free or none is, but for those below a block between.
fn write_between(nodes: &mut [Summary], first: usize, last: usize, value: bool)
    requires order { first < last }
    requires within { last < length nodes.old }
    requires leaves { AreTwoLeaves first last }
    ensures { (top : ℕ) → IsNode top 0 first → IsNode top 0 last →
        AreWrittenBetween nodes.old nodes.new top first last value }
{
    let mut first = first;
    let mut last = last;
    let mut node = alike(value);
    let mut side = BLOCK;
    while first + 1 < last {
        write_level(nodes, first, last, side, node);
        node = node.join(node);
        first /= 2;
        last /= 2;
        side /= 2;
    }
}

/// Writes all nodes below a block of which all words are free, or none is: its eight leaves, the four nodes above
/// these, and the two above those.
#[cold]
#[inline(never)]
fn open_block(nodes: &mut [Summary], block: usize)
    requires within { 8 * block + 8 ≤ length nodes.old }
    requires some { 1 ≤ block }
    ensures { IsBlockWritten nodes.old nodes.new block (node_at nodes.old block).whole }
{
    let value = nodes[block].whole;
    let mut node = alike(value);
    write(nodes, BLOCK * block, BLOCK * block + BLOCK, node);
    node = node.join(node);
    write(nodes, 4 * block, 4 * block + 4, node);
    node = node.join(node);
    write(nodes, 2 * block, 2 * block + 2, node);
}

/// Writes the nodes below the block of a leaf if they may be hidden: if all words of the block are free, or none is.
#[inline(always)]
#[tactic(auto, using(crate::proofs::Opening::opens))]
fn open(nodes: &mut [Summary], leaf: usize)
    requires within { leaf < leaf_count nodes.old }
    requires even { length nodes.old ≡ 2 * leaf_count nodes.old }
    requires power { IsPowerOfTwo (leaf_count nodes.old) }
    ensures { AreOpened nodes.old nodes.new leaf leaf }
{
    let block = (nodes.len() / 2 + leaf) / BLOCK;
    if block == 0 {
        return;
    }
    let node = nodes[block];
    if node.whole || node.longest == 0 {
        open_block(nodes, block);
    }
}

/// Writes the nodes below the blocks of two leaves if they may be hidden.
#[inline(always)]
fn open_two(nodes: &mut [Summary], first: usize, last: usize)
    requires order { first ≤ last }
    requires within { last < leaf_count nodes.old }
    requires even { length nodes.old ≡ 2 * leaf_count nodes.old }
    requires power { IsPowerOfTwo (leaf_count nodes.old) }
    ensures { AreOpened nodes.old nodes.new first last }
{
    open(nodes, first);
    if first / BLOCK == last / BLOCK {
        return;
    }
    open(nodes, last);
}

/// The leaves `first..end`, of which bitmaps may have changed after the nodes were joined.
#[derive(Clone, Copy, Debug)]
pub struct Changed {
    first: usize,
    end: usize,
}

impl Changed {
    /// No leaf changed.
    pub const NONE: Changed = Changed { first: 0, end: 0 };

    /// Whether a leaf is among them.
    #[inline(always)]
    pub(crate) fn has(self, leaf: usize) -> bool
        ensures { IsTrue result → (self.first ≤ leaf) × (leaf < self.end) }
    {
        self.first <= leaf && leaf < self.end
    }
}

/// Joins the nodes of the leaves that changed, and those above them.
pub(crate) fn join_changed(bits: &[u64], nodes: &mut [Summary], changed: Changed)
    requires tree { IsTreeBeside bits.now nodes.old changed }
    requires few { changed.end ≤ changed.first + 3 }
    ensures { IsTree bits.now nodes.new }
{
    if changed.end == 0 {
        return;
    }
    let leaves = nodes.len() / 2;
    join_leaves(bits, nodes, changed.first, changed.end);
    join_above(nodes, leaves + changed.first, leaves + changed.end - 1);
}

/// The leaves that changed, with some more. If these are too far from the others, or not in one block with them, the
/// nodes of the others are joined.
#[tactic(auto, using(crate::proofs::Trees::tree_wider))]
fn with_more(bits: &[u64], nodes: &mut [Summary], changed: Changed, more: Changed) -> Changed
    requires order { more.first < more.end }
    requires within { more.end ≤ leaf_count nodes.old }
    requires tree { IsTreeBeside bits.now nodes.old changed }
    requires few { changed.end ≤ changed.first + 3 }
    ensures tree { IsTreeBeside bits.now nodes.new result }
    ensures first { result.first ≤ more.first }
    ensures end { more.end ≤ result.end }
    ensures few { (result.end ≤ result.first + 3) ⊎ (result ≡ more) }
{
    let both = Changed {
        first: changed.first.min(more.first),
        end: changed.end.max(more.end),
    };
    if changed.end > 0
        && both.end - both.first <= NEAR
        && (both.end - 1) / BLOCK == both.first / BLOCK
    {
        return both;
    }
    join_changed(bits, nodes, changed);
    open_two(nodes, more.first, more.end - 1);
    more
}

/// Makes the words `place..place + len` free or not free, which reach from one leaf to another, and joins the nodes
/// above them. No node below the blocks of these two leaves is hidden.
#[inline(never)]
#[tactic(auto, using(crate::proofs::Nodes::leaf_is))]
fn fill_long(
    bits: &mut [u64],
    nodes: &mut [Summary],
    first: usize,
    last: usize,
    place: usize,
    len: usize,
    value: bool,
)
    requires order { first < last }
    requires within { place + len ≤ 64 * length bits.old }
    requires from { first ≡ place / 256 }
    requires to { last ≡ (place + len - 1) / 256 }
    requires tree { IsTreeBeside bits.old nodes.old (record { first = first; end = last + 1 }) }
    ensures tree { IsTree bits.new nodes.new }
    ensures filled { IsFilled bits.old bits.new place len value }
{
    fill_words(bits, place, len, value);
    let leaves = nodes.len() / 2;
    write_between(nodes, leaves + first, leaves + last, value);
    join_leaves(bits, nodes, first, first + 1);
    join_leaves(bits, nodes, last, last + 1);
    join_above(nodes, leaves + first, leaves + last);
}

/// Makes the words `place..place + len` free or not free, and answers which leaves changed then. The nodes above a long
/// range are joined at once.
pub(crate) fn fill(
    bits: &mut [u64],
    nodes: &mut [Summary],
    changed: Changed,
    place: usize,
    len: usize,
    value: bool,
) -> Changed
    requires within { place + len ≤ 64 * length bits.old }
    requires tree { IsTreeBeside bits.old nodes.old changed }
    requires few { changed.end ≤ changed.first + 3 }
    ensures tree { IsTreeBeside bits.new nodes.new result }
    ensures few { result.end ≤ result.first + 3 }
    ensures filled { IsFilled bits.old bits.new place len value }
{
    if len == 0 {
        return changed;
    }
    let first = place / LEAF_WORDS;
    let last = (place + len - 1) / LEAF_WORDS;
    let mut changed = changed;
    if first < changed.first || changed.end <= last {
        let end = last + 1;
        changed = with_more(bits, nodes, changed, Changed { first, end });
        if NEAR <= last - first {
            fill_long(bits, nodes, first, last, place, len, value);
            return Changed::NONE;
        }
    }
    fill_words(bits, place, len, value);
    changed
}

/// Answers where the lowest hole of at least `len` words begins that the words of the bitmaps `first..end` have.
#[tactic(auto, using(crate::proofs::Near::looking))]
pub(crate) fn find_in(bits: &[u64], first: usize, end: usize, len: usize) -> Option<usize>
    requires some { 1 ≤ len }
    requires order { first ≤ end }
    requires within { end ≤ length bits.now }
    requires small { 64 * length bits.now < 2 ^ 32 }
    ensures none { IsNone result ↔ (widest (words_between bits.now first end) < len) }
    ensures lowest { IfSome result (λ place. place ≡ 64 * first + lowest_fit len (words_between bits.now first end)) }
{
    let mut run = 0;
    for index in first..end {
        let bitmap = bits[index];
        if len <= run + bitmap::front(bitmap) as usize {
            return Some(index * WORDS - run);
        }
        if bitmap::fits(bitmap, len) {
            return Some(index * WORDS + bitmap::lowest_fit(bitmap, len));
        }
        run = if bitmap == u64::MAX {
            run + WORDS
        } else {
            bitmap::back(bitmap) as usize
        };
    }
    None
}

/// Answers where the lowest hole of at least `len` words begins, if the first few bitmaps from `near` on show it.
pub(crate) fn find_near(bits: &[u64], near: usize, len: usize) -> Option<usize>
    requires some { 1 ≤ len }
    requires index { near < length bits.now }
    requires small { 64 * length bits.now < 2 ^ 32 }
    requires none_below { NoneBelow bits.now (64 * near) }
    ensures fits { IfSome result (λ place. len ≤ widest (words_of bits.now)) }
    ensures lowest { IfSome result (λ place. place ≡ lowest_fit len (words_of bits.now)) }
{
    find_in(bits, near, bits.len().min(near + LOOK), len)
}

/// Answers where the lowest hole of at least `len` words begins.
#[tactic(auto, using(crate::proofs::Finding::root_longest))]
pub(crate) fn find(bits: &[u64], nodes: &[Summary], len: usize) -> Option<usize>
    requires some { 1 ≤ len }
    requires tree { IsTree bits.now nodes.now }
    ensures none { IsNone result ↔ (widest (words_of bits.now) < len) }
    ensures lowest { IfSome result (λ place. place ≡ lowest_fit len (words_of bits.now)) }
{
    let root = nodes[1];
    if (root.longest as usize) < len {
        return None;
    }
    if root.whole {
        return Some(0);
    }
    let leaves = nodes.len() / 2;
    let mut index = 1;
    let mut place = 0;
    let mut width = leaves * LEAF_WORDS;
    while index < leaves {
        width /= 2;
        let left = nodes[2 * index];
        let right = nodes[2 * index + 1];
        if len <= left.longest as usize {
            if left.whole {
                return Some(place);
            }
            index = 2 * index;
        } else if len <= left.back as usize + right.front as usize {
            return Some(place + (width - left.back as usize));
        } else {
            place += width;
            index = 2 * index + 1;
        }
    }
    let first = (index - leaves) * LEAF;
    find_in(bits, first, first + LEAF, len)
}

/// The first bitmap that has a free word, or the first of all if no word is free.
#[tactic(auto, using(crate::proofs::Finding::lowest_words))]
fn first_free(bits: &[u64], nodes: &[Summary]) -> usize
    requires { IsTree bits.now nodes.now }
    ensures none_below { NoneBelow bits.now (64 * result) }
    ensures within { result < length bits.now }
{
    match find(bits, nodes, 1) {
        Some(place) => place / WORDS,
        None => 0,
    }
}

/// A bitmap before which no word is free. None is free before `near`. The bitmap has a free word if there is any.
pub(crate) fn later_near(bits: &[u64], nodes: &[Summary], near: usize) -> usize
    requires index { near < length bits.now }
    requires tree { IsTree bits.now nodes.now }
    requires none_below { NoneBelow bits.now (64 * near) }
    ensures none_below { NoneBelow bits.now (64 * result) }
    ensures within { result < length bits.now }
{
    if bits[near] == 0 {
        first_free(bits, nodes)
    } else {
        near
    }
}

/// A bitmap before which no word is free once the words `place..place + len` were taken. None was free before `near`.
#[tactic(auto, using(crate::proofs::Bitmaps::lowest_bits))]
pub(crate) fn near_after(bits: &[u64], near: usize, place: usize, len: usize) -> usize
    requires index { near < length bits.now }
    requires some { 1 ≤ len }
    requires range { place + len ≤ 64 * length bits.now }
    requires small { 64 * length bits.now < 2 ^ 32 }
    requires none_below { NoneBelow bits.now (64 * near) }
    ensures within { result < length bits.now }
    ensures none_beside { NoneBelowBeside bits.now (64 * result) place len }
{
    if place == near * WORDS + bits[near].trailing_zeros() as usize {
        (place + len - 1) / WORDS
    } else {
        near
    }
}

/// Whether a word is free. None is free after the last bitmap.
pub(crate) fn is_free(bits: &[u64], word: usize) -> bool
    ensures { result ≡ word_at bits.now word }
{
    match bits.get(word / WORDS) {
        Some(bits) => bits >> (word % WORDS) & 1 == 1,
        None => false,
    }
}

/// How many holes begin in the first `size` words.
#[tactic(auto, using(crate::proofs::Counts::counts))]
pub(crate) fn count(bits: &[u64], size: usize) -> usize
    ensures { result ≡ hole_count (words_from (word_at bits.now) 0 size) }
{
    let mut count = 0;
    let mut before = false;
    for word in 0..size {
        let free = is_free(bits, word);
        count += usize::from(free & !before);
        before = free;
    }
    count
}

use crate::kind::Kind;
use crate::sequence::Sequence;
use crate::shared_words::SharedWords;

/// The words of a vector, or the list of a `CONST`: the numbers of an INT, 1 and 0 for the T and F
/// of a BOOL, the lengths of a SEGDES.
pub type Words<A> = Sequence<i64, A>;

/// A vector: its kind, and its words in a list of type `L`.
#[derive(PartialEq, Eq, Debug, Drop)]
pub struct Value<L> {
    pub kind: Kind,
    pub words: L,
}

/// Values from the bottom of a stack to its top. Those that have the same words may share them.
pub type Values<A> = Sequence<Value<SharedWords<A>>, A>;

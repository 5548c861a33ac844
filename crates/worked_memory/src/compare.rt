//! Values that have to be the same.
use std::fmt::Debug;
use std::process::Abort;

/// What was found is what was wanted.
///
/// Each `assert_eq!` is proved where it is written, with the text that it would print. A call of this is not.
pub(crate) fn same<T: PartialEq + Debug>(rt: &impl Abort, found: &T, wanted: &T) {
    assert_eq!(rt; found, wanted);
}

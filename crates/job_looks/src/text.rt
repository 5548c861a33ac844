//! The text that is added to.

use std::alloc::Global;
use string_builder::StringBuilder;

/// A text that grows, up to the first refusal of memory. [`StringBuilder::finish`] answers that refusal.
pub type Text = StringBuilder<Global>;

//! Shares of a whole, as texts.

use job_looks::{Text, push_column, push_number};

/// Adds a blank, and a share as a percentage with one digit after the point.
pub(crate) fn push_share(text: &mut Text, part: u64, whole: u64) {
    let whole = whole.max(1);
    let tenths = part.saturating_mul(1000).saturating_add(whole / 2) / whole;
    push_column(text, tenths / 10, 4);
    push_number(text, ".", tenths % 10);
    text.push('%');
}

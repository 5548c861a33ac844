//! What is known of a batch whose jobs are looked at.

use refusal_notes::Lines;
use vcode_base::Rule;

/// A batch whose jobs are looked at.
#[derive(Clone, Copy)]
pub struct Batch<'a> {
    /// The rule by which its jobs run.
    pub rule: Rule,
    /// Its lines.
    pub lines: &'a Lines,
    /// Whether a job that a limit ended is run again within the widest limits, to find the least within which it
    /// returns.
    pub tries_least: bool,
}

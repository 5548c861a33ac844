//! The lines of the source of a job as data.

use crate::data::{push_comma, push_quoted};
use code_places::Sources;
use job_looks::{Text, push_number, push_size};
use job_profile::Profile;
use job_tally::{SourceTotal, Tally, totals_of};
use std::alloc::Global;

/// Adds the names of the files.
fn push_files(text: &mut Text, sources: &Sources) {
    for (place, file) in sources.files.iter().enumerate() {
        push_comma(text, place);
        push_quoted(text, file.as_str());
    }
}

/// Adds a line of the source that did this.
fn push_line(text: &mut Text, sources: &Sources, total: SourceTotal) {
    if let Some(source) = sources.lines.get(total.place) {
        push_size(text, "[", source.file);
        push_number(text, ",", source.number);
        push_number(text, ",", total.instructions);
        push_number(text, ",", total.elements);
        text.push(',');
        push_quoted(text, source.text.as_str());
        text.push(']');
    }
}

/// Adds the lines of the source that did this.
fn push_lines(text: &mut Text, sources: &Sources, totals: &[SourceTotal]) {
    for (place, total) in totals.iter().enumerate() {
        push_comma(text, place);
        push_line(text, sources, *total);
    }
}

/// Adds the marks.
fn push_marks(text: &mut Text, sources: &Sources) {
    for (place, mark) in sources.marks.iter().enumerate() {
        push_comma(text, place);
        push_number(text, "[", mark.line);
        match mark.place {
            Some(source) => push_size(text, ",", source),
            None => text.push_str(",null"),
        }
        text.push(']');
    }
}

/// Adds the member for the lines of the source, if there are some.
pub(crate) fn push_source(
    text: &mut Text,
    alloc: Global,
    sources: &Sources,
    profile: &Profile<Global>,
    tally: &Tally,
) {
    if sources.is_empty() {
        return;
    }
    text.push_str(",\"source\":{\"files\":[");
    push_files(text, sources);
    text.push_str("],\"lines\":[");
    if let Some(totals) = text.get(totals_of(alloc, sources, profile, tally)) {
        push_lines(text, sources, &totals);
    }
    text.push_str("],\"marks\":[");
    push_marks(text, sources);
    text.push_str("]}");
}

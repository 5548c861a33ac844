//! The profile of a job as a text: what its functions and lines did, and what it held at its peak.

use crate::drawing::push_drawing;
use crate::shares::push_share;
use code_places::{Sources, push_place};
use job_looks::{
    Text, push_answer, push_column, push_more, push_number, push_right, push_size, push_text_right,
};
use job_profile::{Profile, Run};
use job_steps::Job;
use job_survey::{Holder, Holdings, Survey, Words};
use job_tally::{FunctionHead, FunctionTally, LineCount, LineTally, Tally, functions_of, lines_of};
use refusal_notes::Lines;
use std::alloc::{AllocError, Global};
use vcode_base::Rule;

/// The most lines that are shown of what they hold.
const MOST_HOLDERS: usize = 12;

/// The functions, those with the most instructions first, and what they did.
///
/// # Errors
///
/// [`AllocError`] if memory was refused.
pub fn sorted_functions(
    alloc: Global,
    profile: &Profile<Global>,
    tally: &Tally,
) -> Result<Vec<(FunctionHead, FunctionTally)>, AllocError> {
    let mut rows = Vec::new(alloc);
    for (place, function) in functions_of(alloc, profile)?.into_iter().enumerate() {
        rows.push((function, tally.function(place)))?;
    }
    rows.sort_by_key(|row| u64::MAX - row.1.own.instructions)?;
    Ok(rows)
}

/// Adds a number of instructions and its share of `whole`, after two blanks.
fn push_part(text: &mut Text, part: u64, whole: u64) {
    text.push(' ');
    push_column(text, part, 12);
    push_share(text, part, whole);
}

/// A function of a job that executed `whole` instructions, and what it did, on a line.
pub fn function_text(
    alloc: Global,
    function: &FunctionHead,
    tally: FunctionTally,
    whole: u64,
) -> Text {
    let mut text = Text::new(alloc);
    text.push(' ');
    push_column(&mut text, tally.calls, 10);
    push_part(&mut text, tally.own.instructions, whole);
    push_part(&mut text, tally.whole.instructions, whole);
    push_column(&mut text, tally.most as u64, 12);
    push_column(&mut text, function.line, 8);
    text.push_str("  ");
    text.push_str(function.name.as_str());
    text.push('\n');
    text
}

/// What comes before the functions.
pub fn functions_head(alloc: Global) -> Text {
    let mut text = Text::new(alloc);
    text.push_str("\nthe functions, by their own instructions\n");
    text.push_str(
        "       calls           own   share  with callees   share   most words     line  name\n",
    );
    text
}

/// The lines that were executed, those of the most elements first, and of these those that were executed most often.
///
/// # Errors
///
/// [`AllocError`] if memory was refused.
pub fn sorted_lines(
    alloc: Global,
    profile: &Profile<Global>,
    tally: &Tally,
) -> Result<Vec<(LineCount, LineTally)>, AllocError> {
    let mut rows = Vec::new(alloc);
    for count in lines_of(alloc, profile)? {
        rows.push((count, tally.line(count.line)))?;
    }
    rows.sort_by_key(|row| u64::MAX - row.0.times)?;
    rows.sort_by_key(|row| u64::MAX - row.1.elements)?;
    Ok(rows)
}

/// A line that was executed, on a line: what it did, its code, and the place of the line of the source of which it is,
/// if it is of one.
pub fn line_text(
    alloc: Global,
    lines: &Lines,
    sources: &Sources,
    count: LineCount,
    tally: LineTally,
) -> Text {
    let (mut text, line) = (Text::new(alloc), count.line as u64);
    text.push(' ');
    push_column(&mut text, count.times, 12);
    text.push(' ');
    push_column(&mut text, tally.elements, 12);
    push_column(&mut text, tally.most as u64, 12);
    push_column(&mut text, line, 8);
    text.push_str("  ");
    push_answer(&mut text, lines.code(alloc, line));
    if let Some(source) = sources.at(line) {
        text.push_str("  ");
        push_place(&mut text, sources, source);
    }
    text.push('\n');
    text
}

/// What comes before the lines that were executed.
pub fn lines_head(alloc: Global) -> Text {
    let mut text = Text::new(alloc);
    text.push_str("\nthe lines, by the elements of their operands and results\n");
    text.push_str("         times      elements   most words     line  instruction\n");
    text
}

/// Adds how many words of a line are not read again, or a dash if that isn't known, since the job doesn't return.
fn push_unread(text: &mut Text, holdings: &Holdings, holder: Holder) {
    text.push(' ');
    match holdings.unread {
        Some(_) => push_right(text, holder.unread as u64, 9),
        None => push_text_right(text, "-", 9),
    }
}

/// Adds what a line holds.
fn push_holder(text: &mut Text, alloc: Global, lines: &Lines, holdings: &Holdings, holder: Holder) {
    push_part(text, holder.words as u64, holdings.words as u64);
    push_column(text, holder.vectors as u64, 8);
    push_column(text, holder.entries as u64, 8);
    push_unread(text, holdings, holder);
    push_column(text, holder.line, 8);
    text.push_str("  ");
    push_answer(text, lines.code(alloc, holder.line));
    text.push('\n');
}

/// Adds what is held at the peak by the lines that made it.
fn push_holders(text: &mut Text, alloc: Global, lines: &Lines, holdings: &Holdings) {
    text.push_str("         words   share  vectors  entries  not read     line  instruction\n");
    let holders = holdings.holders.as_slice();
    let shown = holders.get(..MOST_HOLDERS).unwrap_or(holders);
    for holder in shown {
        push_holder(text, alloc, lines, holdings, *holder);
    }
    push_more(text, holders.len().saturating_sub(shown.len()) as u64);
}

/// Adds what a job held before the peak, which it first had at the instruction of this number.
fn push_held(text: &mut Text, alloc: Global, lines: &Lines, after: u64, holdings: &Holdings) {
    push_number(text, ", first at instruction ", after);
    push_number(text, ", line ", holdings.line);
    push_size(text, "\nheld before it are ", holdings.words);
    text.push_str(" words, by the lines that made them\n");
    push_holders(text, alloc, lines, holdings);
    if let Some(unread) = holdings.unread {
        if unread > 0 {
            push_size(text, "", unread);
            text.push_str(" words of these are not read again in this run\n");
        }
    }
}

/// Adds the most words that a job held and needed, and what it held before it, by the lines that made it.
fn push_peak(
    text: &mut Text,
    alloc: Global,
    lines: &Lines,
    profile: &Profile<Global>,
    holdings: &Holdings,
) {
    push_size(text, "\nthe peak is ", profile.run().peak());
    push_size(text, " of ", profile.run().job().limits().words);
    text.push_str(" words");
    match profile.peak_after() {
        0 => text.push('\n'),
        after => push_held(text, alloc, lines, after, holdings),
    }
}

/// What is shown of a job that has ended, beside how it ended.
#[derive(Drop)]
pub struct Shown {
    /// The run, and what was counted on the way.
    pub survey: Survey,
    holdings: Holdings,
}

impl Shown {
    /// What is shown of a job that has run to its end by a rule.
    ///
    /// # Errors
    ///
    /// [`AllocError`] if memory was refused. The job is gone then.
    pub fn of(alloc: Global, rule: Rule, job: Job<Global>) -> Result<Shown, AllocError> {
        let survey = Survey::of(alloc, rule, job, Words::Counted)?;
        match survey.at_peak(alloc) {
            Ok(holdings) => Ok(Shown { survey, holdings }),
            Err(error) => {
                drop(survey);
                Err(error)
            }
        }
    }

    /// The run.
    pub fn run(&self) -> &Run<Global> {
        self.survey.profile().run()
    }
}

/// Adds the words that a job held over time.
fn push_words(text: &mut Text, alloc: Global, profile: &Profile<Global>) {
    let limit = profile.run().job().limits().words;
    let (each, list) = profile.columns();
    push_drawing(text, alloc, list, each, limit);
}

/// The words that a job held over time, and what it held at the peak.
pub fn words_text(alloc: Global, lines: &Lines, shown: &Shown) -> Text {
    let mut text = Text::new(alloc);
    push_words(&mut text, alloc, shown.survey.profile());
    push_peak(
        &mut text,
        alloc,
        lines,
        shown.survey.profile(),
        &shown.holdings,
    );
    text
}

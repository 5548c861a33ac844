//! A job as data: one JSON object.

use crate::page_data::push_held;
use crate::picture_data::push_picture;
use crate::source_data::push_source;
use batch_reader::{BatchFault, JobFault};
use code_places::{Sources, Spans, last_line_of};
use job_looks::{Ending, Last, Text, WideEnd, Work, push_number, push_size};
use job_profile::{Column, Profile};
use job_survey::{Counts, Survey};
use job_tally::{
    Chain, Chains, FunctionHead, FunctionTally, LineCount, Tally, function_places, functions_of,
    lines_of,
};
use refusal_notes::{Lines, batch_meaning, batch_refusal, job_meaning, printable, refusal};
use std::alloc::{AllocError, Global};
use vcode_base::{Limits, Rule};

/// How many lines are given before and after that of a refusal.
const LINES_BESIDE: u64 = 8;

/// What there is before the fault of a refusal.
const REFUSED: &str = ",\"end\":\"REFUSED ";

/// What is said of the end of a job: its last state, the least limits within which it returns, or the work after which
/// they were given up, or how it ends within the widest limits, if these are known.
#[derive(Drop)]
pub(crate) struct Told {
    pub last: Last,
    pub least: Option<Limits>,
    pub tried: Option<Work>,
    pub widest: Option<WideEnd>,
}

/// Adds a printable text as a JSON string that may stand in a page: `"`, `\`, `<`, `&` and LF are escaped.
pub(crate) fn push_quoted(text: &mut Text, value: &str) {
    text.push('"');
    for letter in value.chars() {
        match letter {
            '"' => text.push_str("\\\""),
            '\\' => text.push_str("\\\\"),
            '<' => text.push_str("\\u003c"),
            '&' => text.push_str("\\u0026"),
            '\n' => text.push_str("\\n"),
            _ => text.push(letter),
        }
    }
    text.push('"');
}

/// Adds a printable text that takes memory as such a string.
pub(crate) fn push_shown(text: &mut Text, shown: Result<String, AllocError>) {
    if let Some(shown) = text.get(shown) {
        push_quoted(text, shown.as_str());
    }
}

/// Adds a comma before each item of a list but the first.
pub(crate) fn push_comma(text: &mut Text, place: usize) {
    if place > 0 {
        text.push(',');
    }
}

/// Adds the first members: the place and the name of a job.
pub(crate) fn push_job(text: &mut Text, alloc: Global, place: u64, name: &[u8]) {
    push_number(text, "{\"job\":", place);
    text.push_str(",\"name\":");
    push_shown(text, printable(alloc, name));
}

/// Adds a fault with this text before it, and its line.
fn push_fault(text: &mut Text, before: &str, fault: &str, line: u64) {
    text.push_str(before);
    text.push_str(fault);
    push_number(text, "\",\"line\":", line);
}

/// Adds how a job ended, and its last line if a fault has one.
pub(crate) fn push_ending(text: &mut Text, ending: Ending) {
    match ending {
        Ending::Returned => text.push_str(",\"end\":\"RETURNED\",\"line\":null"),
        Ending::Budget => text.push_str(",\"end\":\"BUDGET\",\"line\":null"),
        Ending::Fault(fault, line) => push_fault(text, ",\"end\":\"FAULT ", fault.text(), line),
        Ending::Memory(fault, line) => push_fault(text, ",\"end\":\"MEMORY ", fault.text(), line),
    }
}

/// Adds numbers of words, cells, calls and instructions, and ends the object that begins with this text.
fn push_amounts(
    text: &mut Text,
    before: &str,
    (words, cells, calls, budget): (usize, usize, usize, u64),
) {
    text.push_str(before);
    push_size(text, "\"words\":", words);
    push_size(text, ",\"cells\":", cells);
    push_size(text, ",\"calls\":", calls);
    push_number(text, ",\"budget\":", budget);
    text.push('}');
}

/// Adds limits, and ends the object that begins with this text.
fn push_limits(text: &mut Text, before: &str, limits: Limits) {
    let amounts = (limits.words, limits.cells, limits.calls, limits.budget);
    push_amounts(text, before, amounts);
}

/// Adds two members for what was executed, with this text before them.
fn push_count(text: &mut Text, before: &str, instructions: u64, elements: u64) {
    text.push_str(before);
    push_number(text, "\"instructions\":", instructions);
    push_number(text, ",\"elements\":", elements);
}

/// Adds the object of a function.
fn push_function(text: &mut Text, function: &FunctionHead, tally: FunctionTally) {
    text.push_str("{\"name\":");
    push_quoted(text, function.name.as_str());
    push_number(text, ",\"line\":", function.line);
    push_number(text, ",\"calls\":", tally.calls);
    let (own, whole) = (tally.own, tally.whole);
    push_count(text, ",", own.instructions, own.elements);
    text.push_str(",\"with_callees\":");
    push_count(text, "{", whole.instructions, whole.elements);
    text.push_str("}}");
}

/// Adds the objects of functions.
fn push_function_list(text: &mut Text, functions: &[FunctionHead], tally: &Tally) {
    for (place, function) in functions.iter().enumerate() {
        push_comma(text, place);
        push_function(text, function, tally.function(place));
    }
}

/// Adds the member for the functions.
fn push_functions(text: &mut Text, alloc: Global, profile: &Profile<Global>, tally: &Tally) {
    text.push_str(",\"functions\":[");
    if let Some(functions) = text.get(functions_of(alloc, profile)) {
        push_function_list(text, &functions, tally);
    }
    text.push(']');
}

/// Adds what was counted of lines.
fn push_line_list(text: &mut Text, lines: &[LineCount], tally: &Tally) {
    for (place, count) in lines.iter().enumerate() {
        push_comma(text, place);
        push_size(text, "[", count.line);
        push_number(text, ",", count.times);
        push_number(text, ",", tally.line(count.line).elements);
        text.push(']');
    }
}

/// Adds the member for the lines.
fn push_lines(text: &mut Text, alloc: Global, profile: &Profile<Global>, tally: &Tally) {
    text.push_str(",\"lines\":[");
    if let Some(lines) = text.get(lines_of(alloc, profile)) {
        push_line_list(text, &lines, tally);
    }
    text.push(']');
}

/// Adds numbers, and ends the list that begins with this text.
pub(crate) fn push_numbers(text: &mut Text, before: &str, numbers: &[usize]) {
    text.push_str(before);
    for (place, number) in numbers.iter().enumerate() {
        push_comma(text, place);
        text.push_number(*number as u64);
    }
    text.push(']');
}

/// Adds numbers that take memory, and ends the list that begins with this text.
fn push_numbers_of(text: &mut Text, before: &str, numbers: Result<Vec<usize>, AllocError>) {
    if let Some(numbers) = text.get(numbers) {
        push_numbers(text, before, numbers.as_slice());
    }
}

/// Adds the member for the most words of each column.
fn push_most(text: &mut Text, columns: &[Column]) {
    text.push_str(",\"most\":[");
    for (place, column) in columns.iter().enumerate() {
        push_comma(text, place);
        text.push_number(column.most as u64);
    }
    text.push(']');
}

/// Adds the member for the least words of each column.
fn push_least(text: &mut Text, columns: &[Column]) {
    text.push_str(",\"least\":[");
    for (place, column) in columns.iter().enumerate() {
        push_comma(text, place);
        text.push_number(column.least as u64);
    }
    text.push(']');
}

/// The line of the most words of each column.
fn lines_at(alloc: Global, columns: &[Column]) -> Result<Vec<usize>, AllocError> {
    let mut lines = Vec::new(alloc);
    for column in columns {
        lines.push(column.line)?;
    }
    Ok(lines)
}

/// Adds the members for the line of the most words of each column and for its function.
fn push_places(text: &mut Text, alloc: Global, profile: &Profile<Global>) {
    let (_, list) = profile.columns();
    if let Some(lines) = text.get(lines_at(alloc, list)) {
        push_numbers(text, ",\"line\":[", lines.as_slice());
        let functions = function_places(alloc, profile, lines.as_slice());
        push_numbers_of(text, ",\"function\":[", functions);
    }
}

/// Adds the member for the words over time.
fn push_columns(text: &mut Text, alloc: Global, profile: &Profile<Global>, counts: &Counts) {
    let (each, list) = profile.columns();
    push_number(text, ",\"columns\":{\"each\":", each);
    push_most(text, list);
    push_least(text, list);
    push_places(text, alloc, profile);
    push_numbers_of(text, ",\"ran\":[", counts.bands.places(alloc));
    text.push('}');
}

/// Adds a chain of functions that ran inside one another.
fn push_chain(text: &mut Text, chain: &Chain) {
    push_size(text, "[", chain.outer);
    push_size(text, ",", chain.function);
    push_number(text, ",", chain.calls);
    push_number(text, ",", chain.count.instructions);
    push_number(text, ",", chain.count.elements);
    text.push(']');
}

/// Adds the member for the functions that ran inside one another.
fn push_calls(text: &mut Text, chains: &Chains) {
    text.push_str(",\"calls\":[");
    for (place, chain) in chains.chains().iter().enumerate() {
        push_comma(text, place);
        push_chain(text, chain);
    }
    text.push(']');
}

/// Adds the member for what is said of the last line.
fn push_note(text: &mut Text, note: &str) {
    text.push_str(",\"note\":");
    push_quoted(text, note);
}

/// Adds the member for the lines of code from one number to another, as they may be shown.
fn push_code(text: &mut Text, alloc: Global, lines: &Lines, first: u64, last: u64) {
    push_number(text, ",\"code\":{\"first\":", first);
    text.push_str(",\"lines\":[");
    for number in first..=last {
        if number > first {
            text.push(',');
        }
        push_shown(text, lines.line(alloc, number));
    }
    text.push_str("]}");
}

/// Adds the members for what is shown of a refusal at a line and for the code beside it, and ends the object.
fn push_refusal(
    text: &mut Text,
    alloc: Global,
    lines: &Lines,
    line: u64,
    shown: Result<String, AllocError>,
) {
    text.push_str(",\"text\":");
    push_shown(text, shown);
    let first = line.saturating_sub(LINES_BESIDE).max(1);
    let last = line.saturating_add(LINES_BESIDE).min(lines.count());
    push_code(text, alloc, lines, first, last);
    text.push('}');
}

/// The object of a job that was refused at a line for a fault. `place` is the job's in the batch, counted from 1, and
/// its name may be of any bytes.
///
/// # Errors
///
/// [`AllocError`] if memory was refused.
pub fn refusal_object(
    alloc: Global,
    lines: &Lines,
    place: u64,
    name: &[u8],
    line: u64,
    fault: JobFault,
) -> Result<String, AllocError> {
    let mut text = Text::new(alloc);
    push_job(&mut text, alloc, place, name);
    push_fault(&mut text, REFUSED, fault.text(), line);
    push_note(&mut text, job_meaning(fault));
    let shown = refusal(alloc, lines, place, name, line, fault);
    push_refusal(&mut text, alloc, lines, line, shown);
    text.finish()
}

/// The object of a batch that was refused as a whole at a line for a fault.
///
/// # Errors
///
/// [`AllocError`] if memory was refused.
pub fn batch_refusal_object(
    alloc: Global,
    lines: &Lines,
    line: u64,
    fault: BatchFault,
) -> Result<String, AllocError> {
    let mut text = Text::new(alloc);
    text.push_str("{\"job\":null,\"name\":null");
    push_fault(&mut text, REFUSED, fault.text(), line);
    push_note(&mut text, batch_meaning(fault));
    let shown = batch_refusal(alloc, lines, line, fault);
    push_refusal(&mut text, alloc, lines, line, shown);
    text.finish()
}

/// Adds the members for the instructions, the peak and the last line of a job.
fn push_peak(text: &mut Text, survey: &Survey) {
    let end = survey.end();
    push_number(text, ",\"instructions\":", end.executed);
    push_size(text, ",\"peak\":", end.words);
    push_number(text, ",\"peak_at\":", survey.profile().peak_after());
    push_number(text, ",\"last\":", survey.last_line());
}

/// Adds the member for a rule.
fn push_rule(text: &mut Text, rule: Rule) {
    text.push_str(match rule {
        Rule::First => ",\"rule\":1",
        Rule::Second => ",\"rule\":2",
    });
}

/// Adds the members for how a job ended and what it used.
fn push_end(text: &mut Text, survey: &Survey) {
    let (end, run) = (survey.end(), survey.profile().run());
    push_ending(text, end.ending);
    push_peak(text, survey);
    push_limits(text, ",\"limits\":{", run.job().limits());
    push_rule(text, run.rule());
    let used = (end.words, end.cells, end.calls, end.executed);
    push_amounts(text, ",\"used\":{", used);
}

/// Adds the member for the words that were held and needed at a refused instruction, if the limit was that on words.
fn push_wanted(text: &mut Text, wanted: Option<usize>) {
    if let Some(wanted) = wanted {
        push_size(text, ",\"wanted\":", wanted);
    }
}

/// Adds the member for how a job ends within the widest limits, if that is known and it doesn't return.
fn push_widest(text: &mut Text, widest: Option<WideEnd>) {
    if let Some(end) = widest {
        push_number(text, ",\"widest\":{\"instructions\":", end.executed);
        push_ending(text, end.ending);
        push_wanted(text, end.wanted);
        text.push('}');
    }
}

/// Adds the members for what is said of the end of a job that ended so, and ends its object.
pub(crate) fn push_told(text: &mut Text, ending: Ending, told: &Told) {
    push_picture(text, Some(ending), &told.last.picture);
    push_note(text, told.last.note.as_str());
    push_widest(text, told.widest);
    push_limits_told(text, told);
    text.push('}');
}

/// Adds the members for the words that were wanted, the least limits, and the work after which these were given up.
fn push_limits_told(text: &mut Text, told: &Told) {
    push_wanted(text, told.last.wanted);
    if let Some(least) = told.least {
        push_limits(text, ",\"least\":{", least);
    }
    if let Some(work) = told.tried {
        push_count(text, ",\"tried\":{", work.instructions, work.elements);
        text.push('}');
    }
}

/// The columns at which the last instruction that was next begins and ends in its line, if it is a part of what is
/// shown.
fn last_columns(
    alloc: Global,
    lines: &Lines,
    survey: &Survey,
) -> Result<Option<(usize, usize)>, AllocError> {
    let Some(last) = survey.last else {
        return Ok(None);
    };
    let program = survey.profile().run().job().verified().program();
    let spans = Spans::of(alloc, lines, program)?;
    match spans.at(last.frame.function, last.frame.place) {
        Some(word) => Ok(lines.columns(last.line, spans.first, word)),
        None => Ok(None),
    }
}

/// Adds the member for the columns of the last instruction, if they are known.
fn push_carets(text: &mut Text, alloc: Global, lines: &Lines, survey: &Survey) {
    let columns = last_columns(alloc, lines, survey);
    if let Some(Some((begin, end))) = text.get(columns) {
        push_size(text, ",\"carets\":[", begin);
        push_size(text, ",", end);
        text.push(']');
    }
}

/// Adds the member for the lines of the source of a job, if it names some.
fn push_sources(text: &mut Text, alloc: Global, lines: &Lines, survey: &Survey) {
    let profile = survey.profile();
    let sources = Sources::of(alloc, lines, profile.run().job().verified().program());
    if let Some(sources) = text.get(sources) {
        push_source(text, alloc, &sources, profile, &survey.counts.tally);
    }
}

/// Adds the member for the code of a job.
fn push_program(text: &mut Text, alloc: Global, lines: &Lines, survey: &Survey) {
    let program = survey.profile().run().job().verified().program();
    let (first, last) = (program.first_line(), last_line_of(program));
    push_code(text, alloc, lines, first, last);
}

/// Adds the members for what was counted of a job.
fn push_counts(text: &mut Text, alloc: Global, survey: &Survey) {
    let (profile, counts) = (survey.profile(), &survey.counts);
    push_functions(text, alloc, profile, &counts.tally);
    push_lines(text, alloc, profile, &counts.tally);
    push_columns(text, alloc, profile, counts);
    push_calls(text, &counts.chains);
}

/// Adds the members of a job of this place that has run to its end, up to what is said of its end.
pub(crate) fn push_survey(
    text: &mut Text,
    alloc: Global,
    lines: &Lines,
    place: u64,
    survey: &Survey,
) {
    push_job(text, alloc, place, survey.profile().run().job().name());
    push_end(text, survey);
    push_carets(text, alloc, lines, survey);
    push_counts(text, alloc, survey);
    push_sources(text, alloc, lines, survey);
    push_program(text, alloc, lines, survey);
    if let Some(holdings) = text.get(survey.holdings(alloc)) {
        push_held(text, survey.again().number, &holdings);
    }
}

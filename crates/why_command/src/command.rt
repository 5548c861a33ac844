//! The command line.

use crate::selection::{Selection, line_range};
use clap::parser::ValueSource;
use clap::{Arg, ArgMatches, Command};
use job_looks::{Part, Sought, State, place_sought, state_sought, value_range};
use program_words::{Arguments, Asking, Program, WordsFault};
use std::alloc::{AllocError, Global};
use vcode_base::limits::MOST_BUDGET;

/// What is to be shown of a job on a terminal.
#[derive(Drop)]
pub enum Look {
    /// This of a state, and if that is the last one, how the job ended.
    State(State, Part),
    /// A line for each instruction of a selection.
    Steps(Selection),
    /// The words over time, what held the most, and what its functions and lines did: all lines, or the first of them.
    Profile { all: bool },
    /// What its functions executed, by the functions that run inside one another.
    Folded(Unit),
}

/// What is counted of what functions execute.
#[derive(Clone, Copy, Drop)]
pub enum Unit {
    /// The instructions.
    Instructions,
    /// The elements of their operands and results.
    Elements,
    /// The instructions, by the lines of the source.
    Source,
}

/// What is to be given of a job as data.
#[derive(Drop)]
pub enum Object {
    /// All that is known of it.
    Job,
    /// This of a state, and if that is the last one, how the job ended.
    State(State, Part),
}

/// How jobs are to be shown.
#[derive(Drop)]
pub enum Form {
    /// As texts, with this of each.
    Texts(Look),
    /// As data, an object for each.
    Data(Object),
    /// As a page with this data, in the file of this name; `-` is standard output.
    Page(String),
}

/// What is to be shown.
#[derive(Drop)]
pub struct Asked {
    /// The file of the batch; `-` is standard input.
    pub file: String,
    /// The place of a job in the batch, counted from 1. All jobs if there is none.
    pub job: Option<u64>,
    /// How.
    pub form: Form,
    /// Whether a job that a limit ended is run again within the widest limits.
    pub tries_least: bool,
}

/// Why a value of `--values` can't be taken.
const VALUES_TAKES: &str = "--values takes =D, =D:A or =D:A-B, or no value beside --steps";

/// The value of `--values` if none is given.
const MADE: &str = "";

/// The greatest number that an option takes.
const MOST: i64 = MOST_BUDGET as i64;

/// An option whose value is this one if none is given.
fn missing_option<'a>(
    alloc: Global,
    name: &'a str,
    value: &'a str,
    missing: &'a str,
    help: &'a str,
) -> Arg<'a> {
    Arg::new(alloc, name)
        .long(name)
        .value_name(value)
        .num_args(0..=1)
        .require_equals(true)
        .default_missing_value(missing)
        .help(help)
}

/// The units of the option for stacks of functions.
const UNITS: &[&str] = &["instructions", "elements", "source"];

/// The option for stacks of functions.
fn folded_option<'a>(alloc: Global) -> Arg<'a> {
    let help =
        "Shows instructions, also by lines of the source, or elements by stacks of functions, for flame graphs";
    missing_option(alloc, "folded", "UNIT", "instructions", help).value_parser(UNITS)
}

/// The option for values.
fn values_option<'a>(alloc: Global) -> Arg<'a> {
    let help =
        "Shows the values A to B of the entry at depth D, or all; of --steps the values that each made";
    missing_option(alloc, "values", "D[:A-B]", MADE, help)
}

/// Adds the options for a state.
fn add_states<'a>(arguments: &mut Arguments<'a>) -> Result<(), AllocError> {
    arguments.number(
        "job",
        "K",
        0..=MOST,
        None,
        "Shows the K-th job of the batch alone",
    )?;
    arguments.number(
        "after",
        "N",
        0..=MOST,
        None,
        "Shows what there is after N instructions",
    )?;
    let at =
        "Shows what there is before line PLACE is next, or where function PLACE begins, the first or K-th time";
    arguments.text("at", "PLACE[:K]", at)?;
    let when =
        "Shows what there is when first words>N are held, entries>N are there, or makes>N words are to be made";
    arguments.text("when", "WHAT>N", when)
}

/// Adds the options for a list of instructions.
fn add_steps<'a>(arguments: &mut Arguments<'a>) -> Result<(), AllocError> {
    arguments.flag("steps", "Shows a line for each instruction")?;
    arguments.number(
        "from",
        "N",
        0..=MOST,
        None,
        "The first instruction of --steps",
    )?;
    arguments.number("to", "N", 0..=MOST, None, "The last instruction of --steps")?;
    arguments.text("lines", "A-B", "Of --steps only those on the lines A to B")
}

/// Adds the options that thin out a list of instructions.
fn add_filters<'a>(arguments: &mut Arguments<'a>) -> Result<(), AllocError> {
    arguments.number(
        "every",
        "K",
        1..=MOST,
        None,
        "Of these every K-th, from the first on",
    )?;
    arguments.number("first", "N", 1..=MOST, None, "Of these the first N")?;
    arguments.number("last", "N", 1..=MOST, None, "Of these the last N")
}

/// Adds the options for a profile.
fn add_profiles<'a>(arguments: &mut Arguments<'a>) -> Result<(), AllocError> {
    let profile = "Shows the words over time, and what functions and lines did";
    arguments.flag("profile", profile)?;
    arguments.flag("all", "Shows all lines of --profile, else all entries")
}

/// Adds the options for data.
fn add_data<'a>(arguments: &mut Arguments<'a>) -> Result<(), AllocError> {
    let json = "Shows all this as data, an object for each job, or a state alone";
    arguments.flag("json", json)?;
    let html = "Writes a page for a browser that shows this data to OUT; - is standard output";
    arguments.text("html", "OUT", html)
}

/// The program whose words these are.
pub struct VjobsWhy;

impl Program for VjobsWhy {
    const NAME: &'static str = "vjobs-why";

    fn described<'a>(command: Command<'a>) -> Command<'a> {
        command.about("Shows why a VCODE job ended, and what there was on the way")
    }

    fn add_arguments<'a>(arguments: &mut Arguments<'a>) -> Result<(), AllocError> {
        add_states(arguments)?;
        add_steps(arguments)?;
        add_filters(arguments)?;
        add_profiles(arguments)?;
        arguments.add(values_option(arguments.alloc()))?;
        add_data(arguments)?;
        arguments.add(folded_option(arguments.alloc()))?;
        let no_least =
            "Doesn't run a job that a limit ended again, to find limits within which it returns";
        arguments.flag("no-least", no_least)?;
        arguments.file("FILE", "The batch; - is standard input")
    }
}

impl Asking for VjobsWhy {
    type Asked = Asked;

    fn asked_of(alloc: Global, matches: &ArgMatches<'_>) -> Result<Asked, WordsFault> {
        match misuse(alloc, matches)? {
            Some(text) => Err(WordsFault::Refused(text)),
            None => asked_of(alloc, matches),
        }
    }
}

/// The number of an option, if it was given.
fn number(matches: &ArgMatches<'_>, name: &str) -> Option<u64> {
    Some(u64::from(matches.get_one::<u32>(name)?))
}

/// The refusal of a command line for a reason.
fn refusal(alloc: Global, reason: &str) -> WordsFault {
    match format!(in alloc; "vjobs-why: {reason}\n") {
        Ok(text) => WordsFault::Refused(text),
        Err(_) => WordsFault::Memory,
    }
}

/// The instructions that are to be listed.
fn selection_of(matches: &ArgMatches<'_>) -> Result<Selection, &'static str> {
    if matches.get_str("values").unwrap_or(MADE) != MADE {
        return Err("--values takes no value beside --steps");
    }
    let lines = match matches.get_str("lines") {
        Some(text) => Some(line_range(text).ok_or("--lines takes A-B or A")?),
        None => None,
    };
    Ok(Selection {
        from: number(matches, "from").unwrap_or(1),
        to: number(matches, "to").unwrap_or(MOST_BUDGET),
        lines,
        every: number(matches, "every").unwrap_or(1),
        first: number(matches, "first"),
        last: number(matches, "last"),
        values: is_given(matches, "values"),
    })
}

/// The state that is looked for, if there is one.
fn sought_of(alloc: Global, matches: &ArgMatches<'_>) -> Result<Option<Sought>, WordsFault> {
    if let Some(text) = matches.get_str("at") {
        return match place_sought(alloc, text)? {
            Some(sought) => Ok(Some(sought)),
            None => Err(refusal(
                alloc,
                "--at takes LINE or FUNCTION, or one of these with :K",
            )),
        };
    }
    let Some(text) = matches.get_str("when") else {
        return Ok(None);
    };
    match state_sought(text) {
        Some(sought) => Ok(Some(sought)),
        None => Err(refusal(alloc, "--when takes words>N, entries>N or makes>N")),
    }
}

/// What is to be shown of a stack.
fn part_of(matches: &ArgMatches<'_>) -> Result<Part, &'static str> {
    if let Some(text) = matches.get_str("values") {
        let range = value_range(text).ok_or(VALUES_TAKES)?;
        return Ok(Part::Values(range));
    }
    if matches.get_flag("all") {
        return Ok(Part::All);
    }
    Ok(Part::Top)
}

/// A state of a job and what is to be shown of it, or why the value of an option can't be taken.
fn state_of(alloc: Global, matches: &ArgMatches<'_>) -> Result<(State, Part), WordsFault> {
    let part = match part_of(matches) {
        Ok(part) => part,
        Err(reason) => return Err(refusal(alloc, reason)),
    };
    if let Some(count) = number(matches, "after") {
        return Ok((State::After(count), part));
    }
    match sought_of(alloc, matches)? {
        Some(sought) => Ok((State::At(sought), part)),
        None => Ok((State::Last, part)),
    }
}

/// What is to be shown of a job, or why the value of an option can't be taken.
fn look_of(alloc: Global, matches: &ArgMatches<'_>) -> Result<Look, WordsFault> {
    if matches.get_flag("steps") {
        return match selection_of(matches) {
            Ok(selection) => Ok(Look::Steps(selection)),
            Err(reason) => Err(refusal(alloc, reason)),
        };
    }
    if matches.get_flag("profile") {
        return Ok(Look::Profile {
            all: matches.get_flag("all"),
        });
    }
    match matches.get_str("folded") {
        Some("elements") => Ok(Look::Folded(Unit::Elements)),
        Some("source") => Ok(Look::Folded(Unit::Source)),
        Some(_) => Ok(Look::Folded(Unit::Instructions)),
        None => {
            let (state, part) = state_of(alloc, matches)?;
            Ok(Look::State(state, part))
        }
    }
}

/// The options that change what another one shows, and that one.
const PARTS: &[(&str, &str)] = &[
    ("from", "steps"),
    ("to", "steps"),
    ("lines", "steps"),
    ("every", "steps"),
    ("first", "steps"),
    ("last", "steps"),
];

/// Two options of which one changes nothing beside the other.
const CLASHES: &[(&str, &str)] = &[
    ("all", "steps"),
    ("all", "html"),
    ("all", "folded"),
    ("all", "values"),
    ("values", "profile"),
    ("values", "html"),
    ("values", "folded"),
    ("values", "no-least"),
    ("steps", "json"),
];

/// The options for a state on the way.
const STATES: &[&str] = &["after", "at", "when"];

/// The options one of which is given at most, and whether it looks for the least limits.
const LOOKS: &[(&str, bool)] = &[
    ("after", false),
    ("at", false),
    ("when", false),
    ("steps", false),
    ("profile", false),
    ("json", true),
    ("html", true),
    ("folded", false),
];

/// Whether an option is given.
fn is_given(matches: &ArgMatches<'_>, name: &str) -> bool {
    matches!(matches.value_source(name), Some(ValueSource::CommandLine))
}

/// An option that is given without the one that it belongs to, and that one.
fn lonely(matches: &ArgMatches<'_>) -> Option<(&'static str, &'static str)> {
    for (part, whole) in PARTS {
        if is_given(matches, part) && !is_given(matches, whole) {
            return Some((*part, *whole));
        }
    }
    None
}

/// Whether a state on the way is asked for.
fn has_state(matches: &ArgMatches<'_>) -> bool {
    STATES.iter().any(|name| is_given(matches, name))
}

/// Whether a state is to be given as data, and not all that is known of a job.
fn is_data_of_state(matches: &ArgMatches<'_>) -> bool {
    matches.get_flag("json") && (has_state(matches) || is_given(matches, "values"))
}

/// Two options that are given, of which one changes nothing beside the other.
fn idle(matches: &ArgMatches<'_>) -> Option<(&'static str, &'static str)> {
    if is_given(matches, "all") && matches.get_flag("json") && !has_state(matches) {
        return Some(("all", "json"));
    }
    for (first, second) in CLASHES {
        if is_given(matches, first) && is_given(matches, second) {
            return Some((*first, *second));
        }
    }
    None
}

/// Two options of which one alone can be given.
fn clash(matches: &ArgMatches<'_>) -> Option<(&'static str, &'static str)> {
    let mut other = None;
    if is_given(matches, "no-least") {
        other = Some("no-least");
    }
    for (look, has_least) in LOOKS {
        if is_given(matches, look) && !(*look == "json" && is_data_of_state(matches)) {
            match other {
                Some("no-least") if *has_least => {}
                Some(other) => return Some((other, *look)),
                None => {}
            }
            other = Some(*look);
        }
    }
    None
}

/// Why the options that are given can't be used so, if they can't.
fn misuse(alloc: Global, matches: &ArgMatches<'_>) -> Result<Option<String>, AllocError> {
    if let Some((part, whole)) = lonely(matches) {
        let text = format!(in alloc; "vjobs-why: --{part} needs --{whole}\n")?;
        return Ok(Some(text));
    }
    match idle(matches).or(clash(matches)) {
        Some((first, second)) => {
            let text = format!(in alloc;
                "vjobs-why: --{first} and --{second} can't be used together\n"
            )?;
            Ok(Some(text))
        }
        None => Ok(None),
    }
}

/// How jobs are to be shown, or why the value of an option can't be taken.
fn form_of(alloc: Global, matches: &ArgMatches<'_>) -> Result<Form, WordsFault> {
    if let Some(file) = matches.get_str("html") {
        return Ok(Form::Page(String::from_str(alloc, file)?));
    }
    if is_data_of_state(matches) {
        let (state, part) = state_of(alloc, matches)?;
        return Ok(Form::Data(Object::State(state, part)));
    }
    if matches.get_flag("json") {
        return Ok(Form::Data(Object::Job));
    }
    Ok(Form::Texts(look_of(alloc, matches)?))
}

/// What was matched, as far as the options can be used so.
fn asked_of(alloc: Global, matches: &ArgMatches<'_>) -> Result<Asked, WordsFault> {
    let form = form_of(alloc, matches)?;
    Ok(Asked {
        file: String::from_str(alloc, matches.get_str("file").unwrap_or("-"))?,
        job: number(matches, "job"),
        form,
        tries_least: !matches.get_flag("no-least"),
    })
}

//! Chains of functions as flame graph tools take them.

use code_places::{Sources, push_place};
use job_looks::{Text, push_number};
use job_steps::Job;
use job_tally::Chains;
use refusal_notes::printable;
use std::alloc::{AllocError, Global};

/// Adds a name, with a question mark for a semicolon, since that parts the names.
fn push_name(text: &mut Text, name: &str) {
    for letter in name.chars() {
        text.push(if letter == ';' { '?' } else { letter });
    }
}

/// A name as it may be shown.
fn name_of(alloc: Global, name: &[u8]) -> Result<String, AllocError> {
    let mut text = Text::new(alloc);
    if let Some(name) = text.get(printable(alloc, name)) {
        push_name(&mut text, name.as_str());
    }
    text.finish()
}

/// What the rest of a chain is called.
const REST: &[u8] = b"(more)";

/// The names of the functions of a job in the order of its code, and after them that of the rest of a chain.
///
/// # Errors
///
/// [`AllocError`] if memory was refused.
pub fn names_of(alloc: Global, job: &Job<Global>) -> Result<Vec<String>, AllocError> {
    let mut names = Vec::new(alloc);
    for function in job.verified().program().functions() {
        names.push(name_of(alloc, function.name())?)?;
    }
    names.push(name_of(alloc, REST)?)?;
    Ok(names)
}

/// A chain among the chains around one: its place, and its innermost function.
#[derive(Clone, Copy, Drop)]
struct Level {
    place: usize,
    function: usize,
}

/// A chain and those around it, that of `MAIN` first.
#[derive(Drop)]
pub struct Stack {
    alloc: Global,
    levels: Vec<Level>,
}

impl Stack {
    /// No chain.
    pub fn new(alloc: Global) -> Stack {
        Stack {
            alloc,
            levels: Vec::new(alloc),
        }
    }

    /// Leaves out the chains after the one at a place; false if that is none of these chains.
    fn cut(&mut self, place: usize) -> bool {
        for _ in 0..self.levels.len() {
            let Some(level) = self.levels.last() else {
                return false;
            };
            if level.place <= place {
                return level.place == place;
            }
            self.levels.pop();
        }
        false
    }

    /// Adds the chain at a place, inside the last one.
    fn push(&mut self, place: usize, function: usize) -> Result<(), AllocError> {
        self.levels.push(Level { place, function })?;
        Ok(())
    }

    /// Takes the chain at a place and those around it.
    fn take_all(&mut self, chains: &Chains, place: usize) -> Result<(), AllocError> {
        self.levels.clear();
        for place in chains.path(self.alloc, place)?.iter().rev() {
            if let Some(chain) = chains.chains().get(*place) {
                self.push(*place, chain.function)?;
            }
        }
        Ok(())
    }

    /// Takes the chain at a place and those around it. Those that it shares with the chain before stay as they are.
    ///
    /// # Errors
    ///
    /// [`AllocError`] if memory was refused.
    pub fn take(&mut self, chains: &Chains, place: usize) -> Result<(), AllocError> {
        match chains.chains().get(place) {
            Some(chain) if place > 0 && self.cut(chain.outer) => self.push(place, chain.function),
            Some(_) | None => self.take_all(chains, place),
        }
    }

    /// Adds the names of the functions with semicolons between them.
    fn push_names(&self, text: &mut Text, names: &[String]) {
        for (place, level) in self.levels.iter().enumerate() {
            if place > 0 {
                text.push(';');
            }
            text.push_str(name_at(names, level.function));
        }
    }
}

/// The name at a place.
fn name_at(names: &[String], place: usize) -> &str {
    match names.get(place) {
        Some(name) => name.as_str(),
        None => "",
    }
}

/// The line of a chain, with the number of what it executed itself. It is empty if the number is 0.
pub fn chain_text(stack: &Stack, names: &[String], number: u64) -> Text {
    let mut text = Text::new(stack.alloc);
    if number > 0 {
        stack.push_names(&mut text, names);
        push_number(&mut text, " ", number);
        text.push('\n');
    }
    text
}

/// Adds what is after the names of functions for a line of the source.
fn push_source_name(text: &mut Text, alloc: Global, sources: &Sources, line: usize) {
    text.push(';');
    if let Some(source) = sources.lines.get(line) {
        let mut place = Text::new(alloc);
        push_place(&mut place, sources, source);
        if let Some(place) = text.get(place.finish()) {
            push_name(text, place.as_str());
        }
    }
}

/// The line of a line of the source, which has this place there, and of which `count` instructions were executed in a
/// chain.
pub fn source_line_text(
    sources: &Sources,
    stack: &Stack,
    names: &[String],
    line: usize,
    count: u64,
) -> Text {
    let mut text = Text::new(stack.alloc);
    stack.push_names(&mut text, names);
    push_source_name(&mut text, stack.alloc, sources, line);
    push_number(&mut text, " ", count);
    text.push('\n');
    text
}

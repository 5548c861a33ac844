//! The arguments that a program takes.

ghost use Rattle.std.specs.Prelude.{◌≡◌, false};
ghost use Rattle.std.specs.Range.{range_inclusive_exhausted};

use clap::{Arg, ArgAction, value_parser};
use std::alloc::{AllocError, Global};
use std::ops::RangeInclusive;

/// The arguments that a program takes, in the order in which help has them.
#[derive(Drop)]
pub struct Arguments<'a> {
    alloc: Global,
    list: Vec<Arg<'a>>,
}

/// An option for a text.
fn text_option<'a>(alloc: Global, name: &'a str, value: &'a str, help: &'a str) -> Arg<'a> {
    Arg::new(alloc, name)
        .long(name)
        .value_name(value)
        .help(help)
}

/// Each call that adds an argument answers [`AllocError`] if memory was refused. Help shows `value` where an option has
/// its value.
impl<'a> Arguments<'a> {
    /// No argument yet.
    pub(crate) fn new(alloc: Global) -> Arguments<'a> {
        Arguments {
            alloc,
            list: Vec::new(alloc),
        }
    }

    /// The arguments that were added.
    pub(crate) fn into_list(self) -> Vec<Arg<'a>> {
        self.list
    }

    /// The allocator of the arguments.
    pub fn alloc(&self) -> Global {
        self.alloc
    }

    /// Adds an argument.
    pub fn add(&mut self, argument: Arg<'a>) -> Result<(), AllocError> {
        Ok(self.list.push(argument)?)
    }

    /// Adds an option without a value.
    pub fn flag(&mut self, name: &'a str, help: &'a str) -> Result<(), AllocError> {
        let option = Arg::new(self.alloc, name).long(name).help(help);
        self.add(option.action(ArgAction::SetTrue))
    }

    /// Adds an option for a text.
    pub fn text(&mut self, name: &'a str, value: &'a str, help: &'a str) -> Result<(), AllocError> {
        self.add(text_option(self.alloc, name, value, help))
    }

    /// Adds an option for a number within this range, which is `default` if none is given.
    pub fn number(
        &mut self,
        name: &'a str,
        value: &'a str,
        range: RangeInclusive<i64>,
        default: Option<&'a str>,
        help: &'a str,
    ) -> Result<(), AllocError>
        requires { range_inclusive_exhausted range ≡ false }
    {
        let option = text_option(self.alloc, name, value, help);
        let option = option.value_parser(value_parser!(u32).range(range));
        match default {
            Some(default) => self.add(option.default_value(default)),
            None => self.add(option),
        }
    }

    /// Adds the name of a file, which has to be given: the argument `file`.
    pub fn file(&mut self, value: &'a str, help: &'a str) -> Result<(), AllocError> {
        self.add(
            Arg::new(self.alloc, "file")
                .value_name(value)
                .required(true)
                .help(help),
        )
    }
}

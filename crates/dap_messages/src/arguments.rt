//! The members of an object, read as what they have to be.

use crate::refusal::{Refusal, Shape};
use serde_json::Value;
use std::alloc::{AllocError, AllocFailed, Global};

/// Why arguments can't be read.
#[derive(Drop)]
pub(crate) enum Fault {
    /// They are refused.
    Refused(Refusal),
    /// Memory was refused.
    Memory,
}

impl From<AllocError> for Fault {
    fn from(_: AllocError) -> Fault {
        Fault::Memory
    }
}

impl<T: Drop> From<AllocFailed<T>> for Fault {
    fn from(_: AllocFailed<T>) -> Fault {
        Fault::Memory
    }
}

impl From<Refusal> for Fault {
    fn from(refusal: Refusal) -> Fault {
        Fault::Refused(refusal)
    }
}

/// What was read of a member, unless it is there and couldn't be read.
fn read_as<T: Drop>(
    name: &'static str,
    shape: Shape,
    found: Option<&Value>,
    read: Option<T>,
) -> Result<Option<T>, Refusal> {
    if found.is_some() && read.is_none() {
        return Err(Refusal::Wrong(name, shape));
    }
    Ok(read)
}

/// The members of an object. One that is `null` is as one that isn't there.
#[derive(Clone, Copy, Drop)]
pub(crate) struct Arguments<'v>(Option<&'v Value>);

impl<'v> Arguments<'v> {
    /// The members of this object. Without an object there are none.
    pub(crate) fn of(object: Option<&'v Value>) -> Arguments<'v> {
        Arguments(object)
    }

    /// The member of this name.
    pub(crate) fn get(self, name: &'static str) -> Option<&'v Value> {
        match self.0?.get(name)? {
            Value::Null => None,
            value => Some(value),
        }
    }

    /// A whole number within these bounds.
    pub(crate) fn number(
        self,
        name: &'static str,
        least: u64,
        most: u64,
    ) -> Result<Option<u64>, Refusal> {
        let found = self.get(name);
        let number = found.and_then(Value::as_u64);
        let read = number.filter(|number| least <= *number && *number <= most);
        read_as(name, Shape::Number { least, most }, found, read)
    }

    /// A truth value, or this one if there is none.
    pub(crate) fn flag(self, name: &'static str, default: bool) -> Result<bool, Refusal> {
        let found = self.get(name);
        let read = read_as(name, Shape::Flag, found, found.and_then(Value::as_bool))?;
        Ok(read.unwrap_or(default))
    }

    /// A string.
    pub(crate) fn text(self, name: &'static str) -> Result<Option<&'v str>, Refusal> {
        let found = self.get(name);
        read_as(name, Shape::Text, found, found.and_then(Value::as_str))
    }

    /// The items of an array, of which there are none if there is no array.
    pub(crate) fn list(self, name: &'static str) -> Result<&'v [Value], Refusal> {
        let found = self.get(name);
        let read = read_as(name, Shape::List, found, found.and_then(Value::as_array))?;
        Ok(match read {
            Some(list) => list.as_slice(),
            None => &[],
        })
    }

    /// The members of an object that is a member.
    pub(crate) fn object(self, name: &'static str) -> Result<Arguments<'v>, Refusal> {
        let found = self.get(name);
        match found {
            None | Some(Value::Object(_)) => Ok(Arguments(found)),
            Some(_) => Err(Refusal::Wrong(name, Shape::Object)),
        }
    }

    /// A whole number within these bounds that has to be there.
    pub(crate) fn needed_number(
        self,
        name: &'static str,
        least: u64,
        most: u64,
    ) -> Result<u64, Refusal> {
        self.number(name, least, most)?
            .ok_or(Refusal::Missing(name))
    }

    /// A copy of a string that has to be there.
    pub(crate) fn needed_text(self, alloc: Global, name: &'static str) -> Result<String, Fault> {
        match self.text(name)? {
            Some(text) => Ok(String::from_str(alloc, text)?),
            None => Err(Fault::Refused(Refusal::Missing(name))),
        }
    }
}

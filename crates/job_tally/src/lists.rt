//! The functions of a job, and the lines of it that were executed.

use job_profile::Profile;
use refusal_notes::printable;
use std::alloc::{AllocError, Global};

/// A function of a job.
#[derive(Drop)]
pub struct FunctionHead {
    /// Its name, as it may be shown.
    pub name: String,
    /// The line of its `FUNC`.
    pub line: u64,
}

/// A line of a job that was executed.
#[derive(Clone, Copy, Drop)]
pub struct LineCount {
    /// Its number, counted from 1 in the batch.
    pub line: usize,
    /// How often it was executed.
    pub times: u64,
}

/// The functions of a job, in the order of its code.
///
/// # Errors
///
/// [`AllocError`] if memory was refused.
pub fn functions_of(
    alloc: Global,
    profile: &Profile<Global>,
) -> Result<Vec<FunctionHead>, AllocError> {
    let mut functions = Vec::new(alloc);
    for function in profile.run().job().verified().program().functions() {
        functions.push(FunctionHead {
            name: printable(alloc, function.name())?,
            line: function.line(),
        })?;
    }
    Ok(functions)
}

/// Of each of these lines the place of its function in the code, counted from 0: the last that begins there or before.
///
/// # Errors
///
/// [`AllocError`] if memory was refused.
pub fn function_places(
    alloc: Global,
    profile: &Profile<Global>,
    lines: &[usize],
) -> Result<Vec<usize>, AllocError> {
    let functions = profile.run().job().verified().program().functions();
    let mut places = Vec::new(alloc);
    for line in lines {
        let number = *line as u64;
        let count = functions.partition_point(|function| function.line() <= number);
        places.push(count.saturating_sub(1))?;
    }
    Ok(places)
}

/// The lines that were executed, in the order of the code.
///
/// # Errors
///
/// [`AllocError`] if memory was refused.
pub fn lines_of(alloc: Global, profile: &Profile<Global>) -> Result<Vec<LineCount>, AllocError> {
    let mut lines = Vec::new(alloc);
    for (line, times) in profile.times().iter().enumerate() {
        if *times > 0 {
            lines.push(LineCount {
                line,
                times: *times,
            })?;
        }
    }
    Ok(lines)
}

//! What a search finds for a program.

use crate::fault::PlacedFault;
use crate::finder::Finder;
use crate::text::put_signature;
use std::alloc::Allocator;
use vcode_reader::Program;

/// The text of the signatures that a search finds, which may not fit the program: a line for each function, in their
/// order.
#[derive(Drop)]
pub struct Guess<A: Allocator> {
    pub text: Vec<u8, A>,
    /// What is wrong if it doesn't fit: that a function returns on no path, if one was assumed to return.
    pub blame: Option<PlacedFault>,
}

/// The signatures that a search finds for a program, with stacks of at most `most_entries` entries.
///
/// # Errors
///
/// [`PlacedFault`] has them.
pub fn make_guess<A: Allocator + Copy>(
    alloc: A,
    program: &Program<A>,
    most_entries: usize,
) -> Result<Guess<A>, PlacedFault> {
    let mut finder = Finder::find(alloc, program, most_entries)?;
    let guess = guess_of(alloc, program, &mut finder);
    drop(finder);
    guess
}

/// The text of what a finder has found, and what is wrong if it doesn't fit.
fn guess_of<A: Allocator + Copy>(
    alloc: A,
    program: &Program<A>,
    finder: &mut Finder<'_, A>,
) -> Result<Guess<A>, PlacedFault> {
    let mut text = Vec::new(alloc);
    for (place, function) in program.functions().iter().enumerate() {
        put_line(&mut text, finder, place, function.name())?;
    }
    Ok(Guess {
        text,
        blame: finder.blame(),
    })
}

/// Appends the line of the function at this place, which has this name.
fn put_line<A: Allocator + Copy>(
    text: &mut Vec<u8, A>,
    finder: &mut Finder<'_, A>,
    place: usize,
    name: &[u8],
) -> Result<(), PlacedFault> {
    let kinds = finder.function_type(place)?;
    Ok(put_signature(text, name, &kinds)?)
}

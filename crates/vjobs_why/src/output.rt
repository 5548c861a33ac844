//! What is printed.

use job_looks::{Text, push_more};
use std::io;

/// Prints a text, unless memory was refused for it.
pub fn print_text(rt: &HostRuntime, text: Text) -> io::Result<()> {
    let text = text.finish()?;
    print!(rt; "{text}")
}

/// Prints what a text has so far, if it has something and memory wasn't refused for it, and takes that away.
pub fn print_and_clear(rt: &HostRuntime, text: &mut Text) -> io::Result<()> {
    let so_far = text.as_str()?;
    if so_far.is_empty() {
        return Ok(());
    }
    print!(rt; "{so_far}")?;
    text.clear();
    Ok(())
}

/// Prints a line for how many more there are than are shown, if there are some.
pub fn print_more(rt: &HostRuntime, more: u64) -> io::Result<()> {
    let mut text = Text::new(rt.alloc());
    push_more(&mut text, more);
    print_text(rt, text)
}

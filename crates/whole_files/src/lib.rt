//! Files that are read and written whole, in folders where strangers may put anything.
//!
//! [`read_regular`] reads regular files alone, so that no pipe makes it wait. [`write_whole`] writes a new file and
//! renames it, so that a file is there whole or not at all, whenever the program is stopped, and nothing is written
//! through a link.
#![tactic(auto)]

mod reading;
mod writing;

pub use reading::{read_regular, read_up_to};
pub use writing::{sync_folder, write_whole};

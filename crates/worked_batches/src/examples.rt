//! Examples, each of them a file `NAME.vcode` with a batch and a file `NAME.report` with what `vjobs` prints on it.

use crate::cuts::ending_however_cut;
use batch_front::Options;
use std::io::Write;
use std::{fs, io};
use vcode_base::limits::MOST_WORDS;

/// The words of the region that `vjobs` takes if none is given.
const REGION: u32 = MOST_WORDS as u32;

/// Runs the example of this name and prints whether its report is the wanted one.
pub fn show_example(rt: &HostRuntime, name: &str) -> io::Result<()> {
    let batch = format!(in rt.alloc(); "examples/{name}.vcode")?;
    let batch = fs::read(rt, batch.as_str())?;
    let wanted = format!(in rt.alloc(); "examples/{name}.report")?;
    let wanted = fs::read(rt, wanted.as_str())?;
    let options = Options {
        region: REGION,
        workers: 1,
        lanes: 1,
        schedule: None,
    };
    let Some(ending) = ending_however_cut(rt.alloc(), &batch, &options) else {
        return println!(rt; "{name} comes to something else in pieces");
    };
    let exit = ending.exit;
    if ending.report == wanted {
        return println!(rt; "{name} gives its report and exits with {exit}, however it is cut");
    }
    println!(rt; "{name} exits with {exit} and gives another report:")?;
    rt.stdout().write_all(&ending.report)
}

//! The texts of faults that no run of the program shows. The others `tests/lines` compares.
use batch_front::{FrontFault, ScheduleFault};
use std::alloc::Global;
use std::fmt::Display;
use std::process::Abort;
use std::test::Fail;

/// This is the text of a fault.
fn is_told<T: Display>(rt: &impl Abort, alloc: Global, fault: &T, text: &str) -> Result<(), Fail> {
    let told = format!(in alloc; "{fault}")?;
    assert_eq!(rt; told.as_str(), text);
    Ok(())
}

#[test]
fn tells_faults(rt: HostRuntime) -> Result<(), Fail> {
    let mixed = FrontFault::Mixed;
    is_told(&rt, rt.alloc(), &mixed, "vjobs: workers failed")?;
    let bad = ScheduleFault::Bad;
    is_told(&rt, rt.alloc(), &bad, "vjobs: bad schedule")?;
    let memory = ScheduleFault::Memory;
    is_told(&rt, rt.alloc(), &memory, "vjobs: out of memory")
}

//! A schedule as a text. What is no schedule `tests/lines` gives the program.
use batch_front::{Item, parse_schedule};

#[test]
fn reads_items(rt: HostRuntime) {
    let items = parse_schedule(rt.alloc(), "01,b2,f64");
    assert!(rt;
        matches!(&items, Ok(items)
        if items.as_slice() == [Item::Step(1), Item::Begin(2), Item::Finish(64)].as_slice())
    );
    drop(items);
}

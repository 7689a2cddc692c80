// How a source is asked for items.
use diagrams::items::Item;
use diagrams::source::Source;
use refusals::Fault;
use std::process::Abort;

// The source gives these items in order.
pub fn begins<S: Source>(rt: &impl Abort, source: &mut S, items: &[Item]) {
    for item in items {
        assert!(rt; source.next() == Ok(Some(*item)));
    }
}

// The source gives these items in order, and then that answer, more than once.
fn ends<S: Source>(
    rt: &impl Abort,
    source: &mut S,
    items: &[Item],
    last: Result<Option<Item>, Fault>,
) {
    begins(rt, source, items);
    for _ in 0..3 {
        assert!(rt; source.next() == last);
    }
}

// The source gives these items in order, and then the end.
pub fn gives<S: Source>(rt: &impl Abort, source: &mut S, items: &[Item]) {
    ends(rt, source, items, Ok(None));
}

// The source gives these items in order, and then a fault.
pub fn breaks<S: Source>(rt: &impl Abort, source: &mut S, items: &[Item], fault: Fault) {
    ends(rt, source, items, Err(fault));
}

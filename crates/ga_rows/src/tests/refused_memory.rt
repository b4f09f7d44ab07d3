//! The first request of `run` refused.
//!
//! `rt try --test --fail-alloc 1` refuses it, and the test passes then and where memory is ample.
use super::doubles::{Sink, Source, WHOLE};
use crate::{Status, run};
use std::alloc::Global;

/// How `run` ended on one byte; not at all where it wrote what doesn't go with that.
fn end_on_one_byte(alloc: Global) -> Option<Status> {
    let mut source = Source::new(&[7], WHOLE, None);
    let mut sink = Sink::new(b"rest 7\n", WHOLE, usize::MAX);
    match run(alloc, &[], &mut source, &mut sink) {
        Status::Memory if sink.writes() == 0 => Some(Status::Memory),
        Status::Rest if sink.has_text() => Some(Status::Rest),
        _ => None,
    }
}

#[test]
fn one_byte_is_refused_with_nothing_written(rt: HostRuntime) {
    let mut end = end_on_one_byte(rt.alloc());
    if end == Some(Status::Memory) {
        // One request alone is refused, so the same call ends well now.
        let _ = println!(rt; "refused: run");
        end = end_on_one_byte(rt.alloc());
    }
    assert!(rt; end == Some(Status::Rest));
}

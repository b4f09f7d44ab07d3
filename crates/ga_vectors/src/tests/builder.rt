//! Builders at concrete types.
use crate::tests::numbers::has;
use generic_array::{ArrayBuilder, U0, U3, U4};

#[test]
fn builders_go_on_at_their_position(rt: HostRuntime) {
    let mut builder: ArrayBuilder<u32, U4> = ArrayBuilder::new();
    builder.extend(&mut [1, 2].into_iter());
    assert!(rt; builder.position() == 2);
    let mut items = 3..10u32;
    builder.extend(&mut items);
    builder.extend(&mut items);
    assert!(rt; items.next() == Some(5) && builder.is_full());
    assert!(rt; has(builder.finish(), &[1, 2, 3, 4]));
}

#[test]
fn a_builder_goes_on_behind_an_error(rt: HostRuntime) {
    let mut builder: ArrayBuilder<u32, U3> = ArrayBuilder::new();
    let mut items = [Ok(1u32), Err("x"), Ok(2)].into_iter();
    assert!(rt; builder.try_extend(&mut items) == Err("x") && builder.position() == 1);
    assert!(rt; builder.try_extend(&mut items).is_ok() && builder.position() == 2);
}

#[test]
fn a_builder_of_none_is_full_and_takes_nothing(rt: HostRuntime) {
    let mut builder: ArrayBuilder<u32, U0> = ArrayBuilder::new();
    let mut items = [7u32].into_iter();
    assert!(rt; builder.is_full());
    builder.extend(&mut items);
    assert!(rt; items.next() == Some(7));
}

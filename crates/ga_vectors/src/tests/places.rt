//! Places of arrays and of views, and of rows and what lies behind them.
use generic_array::{ChunksMut, Const, GenericArrayRef, U2, arr};
use std::test::Fail;

#[test]
fn a_place_of_an_array_is_written(rt: HostRuntime) {
    let mut array = arr![1, 2, 3];
    array[1] = 9;
    assert!(rt; array == arr![1, 9, 3]);
}

#[test]
fn a_view_has_the_places_of_its_items_alone(rt: HostRuntime) {
    let array = arr![1, 2];
    let view = array.view();
    assert!(rt; view.get(1).copied() == Some(2) && view.get(2).is_none());
}

#[test]
fn a_view_may_have_more_items_than_an_inline_array(rt: HostRuntime) -> Result<(), Fail> {
    let view = GenericArrayRef::<u8, Const<65_537>>::try_from_slice(&[0; 65_537])?;
    assert!(rt; view.as_slice().len() == 65_537);
    assert!(rt; GenericArrayRef::<u8, Const<65_537>>::try_from_slice(&[0; 65_536]).is_err());
    Ok(())
}

#[test]
fn what_is_written_to_a_row_and_behind_the_rows_stands_in_the_slice(rt: HostRuntime) {
    let mut items = [1u32, 2, 3, 4, 5];
    let (mut rows, rest) = ChunksMut::<u32, U2>::chunks_from_slice_mut(&mut items);
    rows.row_mut(1)[0] = 9;
    rest[0] = 8;
    assert!(rt; items == [1, 2, 9, 4, 8]);
}

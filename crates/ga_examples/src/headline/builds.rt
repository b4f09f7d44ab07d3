//! A build of all items, and what it shows.
ghost use Rattle.std.specs.Prelude.{◌≡◌, IfOk, length};

use ga_headline::builds::build_of_items;
use ga_headline::lists::items_of;
use generic_array::{AllocError, BoxedArray, FillError, Never, U2, Unsigned};
use std::alloc::Global;
use std::test::Fail;

/// Builds a block of all items, of any number. They are as many as it has places, so only memory
/// can be short.
fn boxed_of_all<N: Unsigned>(
    alloc: Global,
    items: Vec<u32>,
) -> Result<BoxedArray<u32, N>, AllocError>
    requires { length items.items ≡ N.USIZE }
    ensures { IfOk result (λ array. array ≡ items.items) }
{
    let built: Result<BoxedArray<u32, N>, FillError<Never, AllocError>> = build_of_items(
        alloc, items,
    );
    match built {
        Ok(array) => Ok(array),
        Err(FillError::Place(refused)) => Err(refused),
        Err(FillError::Length(_other)) => unreachable!(),
        Err(FillError::Item(never)) => match never {},
    }
}

#[test]
fn a_build_shows_its_items(rt: HostRuntime) -> Result<(), Fail> {
    let alloc = rt.alloc();
    let built = boxed_of_all::<U2>(alloc, vec![in alloc; 4, 5]?)?;
    assert!(rt; items_of(&built) == [4, 5].as_slice());
    Ok(())
}

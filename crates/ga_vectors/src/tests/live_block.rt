//! Callers of a block, each proved, and that memory is found.
ghost use Rattle.generic_array.specs.Live.{live};
ghost use Rattle.std.specs.Prelude.{◌≡◌, ◌∷◌, [], IfOk, IsOk, None, Some};

use generic_array::{AllocError, LiveBlock};
use std::alloc::Global;

/// What the first item of two is, and the room after it was taken.
fn front_of_two(alloc: Global) -> Result<(Option<u32>, usize), AllocError>
    ensures { IfOk result (λ answers. answers ≡ (Some 1, 0)) }
{
    let mut block = LiveBlock::new(alloc, 2)?;
    block.put(1);
    block.put(2);
    let first = block.take_front();
    Ok((first, block.room()))
}

/// What the last item is, behind one that was taken, the room then, and what comes after it.
fn back_of_two(alloc: Global) -> Result<(Option<u32>, usize, Option<u32>), AllocError>
    ensures { IfOk result (λ answers. answers ≡ (Some 2, 1, None)) }
{
    let mut block = LiveBlock::new(alloc, 2)?;
    block.put(1);
    block.put(2);
    let _ = block.take_front();
    let last = block.take_back();
    let room = block.room();
    Ok((last, room, block.take_back()))
}

/// A block of two whose second item was taken, and another put in its place.
fn put_in_place(alloc: Global) -> Result<LiveBlock<u32>, AllocError>
    ensures { IfOk result (λ block. block ≡ live (1 ∷ 30 ∷ []) 0) }
{
    let mut block = LiveBlock::new(alloc, 2)?;
    block.put(1);
    block.put(2);
    let _ = block.take_back();
    block.put(30);
    Ok(block)
}

fn written_over(block: LiveBlock<u32>) -> LiveBlock<u32>
    requires { block ≡ live (1 ∷ 30 ∷ []) 0 }
    ensures { result ≡ live (1 ∷ 20 ∷ []) 0 }
{
    let mut block = block;
    block.as_mut_slice()[1] = 20;
    block
}

fn no_room(alloc: Global) -> Result<LiveBlock<u32>, AllocError>
    ensures { IsOk result }
{
    LiveBlock::new(alloc, 0)
}

/// How many of three items without a size are left when the last was taken, and whether it came.
fn units_left(alloc: Global) -> Result<(Option<()>, usize), AllocError> {
    let mut block = LiveBlock::new(alloc, 3)?;
    block.put(());
    block.put(());
    block.put(());
    let last = block.take_back();
    Ok((last, block.as_slice().len()))
}

#[test]
fn a_block_gives_what_was_put_from_both_ends(rt: HostRuntime) {
    assert!(rt; front_of_two(rt.alloc()).expect(&rt, "no memory") == (Some(1), 0));
    assert!(rt; back_of_two(rt.alloc()).expect(&rt, "no memory") == (Some(2), 1, None));
    let block = written_over(put_in_place(rt.alloc()).expect(&rt, "no memory"));
    assert!(rt; block.as_slice() == [1, 20].as_slice() && block.len() == 2);
    assert!(rt; no_room(rt.alloc()).is_ok_and(|block| block.as_slice().is_empty()));
    assert!(rt; units_left(rt.alloc()).expect(&rt, "no memory") == (Some(()), 2));
}

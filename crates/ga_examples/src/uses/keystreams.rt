//! Blocks under masks, there and back. The set `keystreams` stands at the head of the module.
#![tactic(auto, using(ga_ciphers::proofs::KeystreamLemmas::keystreams))]

ghost use Rattle.ga_ciphers.specs.Keystream.{under};
ghost use Rattle.std.specs.Prelude.{◌≡◌};

use generic_array::{ArrayLength, BorrowedItems, GenericArray};

// A lemma needs the lengths of the arrays. Each `let _ = array.as_slice();` gives one.

fn mask_block<N: ArrayLength<u8>>(block: &mut GenericArray<u8, N>, mask: &GenericArray<u8, N>)
    ensures { block.new ≡ under block.old mask.now }
{
    *block = block.zip_inline_ref(mask.view(), |byte: &u8, mask: &u8| *byte ^ *mask);
}

fn mask_twice<N: ArrayLength<u8>>(block: &mut GenericArray<u8, N>, mask: &GenericArray<u8, N>)
    ensures { block.new ≡ block.old }
{
    let _ = block.as_slice();
    let _ = mask.as_slice();
    mask_block(block, mask);
    mask_block(block, mask);
}

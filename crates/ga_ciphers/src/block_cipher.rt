//! Block ciphers: blocks of a length that is a type, encrypted and decrypted under a key.
ghost use Rattle.std.specs.Prelude.{◌≡◌, ℕ, ◌<◌, List, map};

use generic_array::{ArrayLength, GenericArray};

/// A block cipher under a key. The counterpart of RustCrypto's `BlockEncrypt` and `BlockDecrypt`.
///
/// An impl writes the calls that work in place. Those by value come with them, as `final` ones,
/// since the checker refuses an impl with a call that takes an array by value.
pub trait BlockCipher {
    /// How many bytes a block has, as a length.
    type BlockSize: ArrayLength<u8>;

    // What a block is encrypted to.
    ghost encrypted: { Self → List ℕ → List ℕ };

    // What a block is decrypted to.
    ghost decrypted: { Self → List ℕ → List ℕ };

    /// Encrypts the block where it lies. Decrypting gives it back, which each impl proves.
    fn encrypt_block(&self, block: &mut GenericArray<u8, Self::BlockSize>)
        ensures block { block.new ≡ encrypted self.now block.old }
        ensures back { decrypted self.now block.new ≡ block.old };

    /// Decrypts the block where it lies.
    fn decrypt_block(&self, block: &mut GenericArray<u8, Self::BlockSize>)
        ensures { block.new ≡ decrypted self.now block.old };

    /// The block, encrypted. Decrypting gives it back.
    final fn encrypt(
        &self,
        mut block: GenericArray<u8, Self::BlockSize>,
    ) -> GenericArray<u8, Self::BlockSize>
        ensures block { result ≡ encrypted self.now block }
        ensures back { decrypted self.now result ≡ block }
    {
        self.encrypt_block(&mut block);
        block
    }

    /// The block, decrypted.
    final fn decrypt(
        &self,
        mut block: GenericArray<u8, Self::BlockSize>,
    ) -> GenericArray<u8, Self::BlockSize>
        ensures { result ≡ decrypted self.now block }
    {
        self.decrypt_block(&mut block);
        block
    }

    /// Encrypts each block where it lies, in order.
    #[tactic(auto, using(std::proofs::lemmas::List::Edits::map_over_more))]
    final fn encrypt_blocks(&self, blocks: &mut [GenericArray<u8, Self::BlockSize>])
        ensures { blocks.new ≡ map (encrypted self.now) blocks.old }
    {
        for block in blocks.iter_mut() {
            self.encrypt_block(block);
        }
    }

    /// Decrypts each block where it lies, in order.
    #[tactic(auto, using(std::proofs::lemmas::List::Edits::map_over_more))]
    final fn decrypt_blocks(&self, blocks: &mut [GenericArray<u8, Self::BlockSize>])
        ensures { blocks.new ≡ map (decrypted self.now) blocks.old }
    {
        for block in blocks.iter_mut() {
            self.decrypt_block(block);
        }
    }

    // Blocks aren't empty.
    ghost some: { 0 < Self.BlockSize.USIZE };
}

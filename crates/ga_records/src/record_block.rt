//! A block of records that lies in a slice of bytes.
ghost use Rattle.ga_records.specs.Block.{bytes_of};
ghost use Rattle.ga_records.specs.Records.{IsLastWith, IsRecordBlock, NoneHas, last_record_with};
ghost use Rattle.generic_array.specs.RowIteration.{RowsInOrder, RowsInReverse};
ghost use Rattle.generic_array.specs.Rows.{rows};
ghost use Rattle.generic_array.specs.Views.{items_of_view};
ghost use Rattle.std.specs.Io.KnownBytes.{Appends};
ghost use Rattle.std.specs.Option.{option_map};
ghost use Rattle.std.specs.Prelude.{◌≡◌, ◌<◌, ◌↔◌, IfOk, IfSome, IsNone, ℕ, IsOk, OnOk, length, slice_get, ⊤};

use generic_array::{
    ArrayLength, ChunkIter, ChunksRef, GenericArray, GenericArrayRef, LengthError,
};
use std::alloc::AllocError;
use std::io;
use std::io::Write;

/// Records of `N` bytes each that fill a slice. It can be copied, and copies no byte.
///
/// No call asks for memory.
pub struct RecordBlock<'a, N: ArrayLength<u8>> {
    records: ChunksRef<'a, u8, N>,
}

impl<'a, N: ArrayLength<u8>> Clone for RecordBlock<'a, N> {
    ghost is_clone = { λ block copy. copy ≡ block };

    ghost is_infallible = { λ _. ⊤ };

    fn clone(&self) -> Result<Self, AllocError> {
        Ok(*self)
    }
}

impl<'a, N: ArrayLength<u8>> Copy for RecordBlock<'a, N> {}

impl<'a, N: ArrayLength<u8>> RecordBlock<'a, N> {
    /// The records of these bytes, or `LengthError` if some bytes are left behind the last whole
    /// record. No bytes are no records. Requires that `N` isn't 0. O(1).
    #[inline]
    pub fn open(bytes: &'a [u8]) -> Result<Self, LengthError>
        requires width { 0 < N.USIZE }
        ensures variant { IsOk result ↔ IsRecordBlock N.USIZE bytes.now }
        ensures ok { IfOk result (λ block. bytes_of block ≡ bytes.now) }
    {
        let (records, rest) = GenericArray::<u8, N>::chunks_from_slice(bytes);
        if rest.is_empty() {
            Ok(RecordBlock { records })
        } else {
            Err(LengthError)
        }
    }

    /// The number of records. O(1).
    #[inline]
    pub fn len(&self) -> usize
        ensures { result ≡ length (rows N.USIZE (bytes_of self.now)) }
    {
        self.records.len()
    }

    /// The record at `index`, or `None` if there are at most `index` records. O(1).
    #[inline]
    pub fn record(&self, index: usize) -> Option<GenericArrayRef<'a, u8, N>>
        ensures { option_map items_of_view result
            ≡ slice_get (rows N.USIZE (bytes_of self.now)) index }
    {
        self.records.get(index)
    }

    /// The records in order, from both ends.
    #[inline]
    pub fn iter(&self) -> ChunkIter<'_, u8, N>
        ensures records { result ≡ rows N.USIZE (bytes_of self.now) }
        ensures runs { RowsInOrder ℕ N N.Unsigned }
        ensures runs_back { RowsInReverse ℕ N N.Unsigned }
    {
        self.records.iter()
    }

    /// The greatest index of a record that contains the byte, or `None` where none does.
    ///
    /// Looks from the back and stops at the first record found: takes time in proportion to the
    /// bytes behind it and in it. No clause and no test says so.
    pub fn last_with(&self, byte: u8) -> Option<usize>
        ensures index { result ≡ last_record_with byte (rows N.USIZE (bytes_of self.now)) }
        ensures some { IfSome result (λ index.
            IsLastWith byte (rows N.USIZE (bytes_of self.now)) index) }
        ensures none { IsNone result ↔ NoneHas byte (rows N.USIZE (bytes_of self.now)) }
    {
        let mut left = self.iter();
        while let Some(record) = left.next_back() {
            if record.as_slice().contains(&byte) {
                return Some(left.len());
            }
        }
        None
    }

    /// Writes the bytes of all records, in order, by one `write_all`, and by none if there are no
    /// records. Returns the first error of the writer, and says nothing of how much was written.
    pub fn write_to<W: Write>(&self, w: &mut W) -> Result<(), io::Error>
        ensures written { OnOk result
            (Appends (W.contents w.old) (W.contents w.new) (bytes_of self.now)) }
        ensures empty { length (bytes_of self.now) ≡ 0 → IsOk result }
    {
        let bytes = self.records.as_slice();
        if bytes.is_empty() {
            return Ok(());
        }
        w.write_all(bytes)
    }
}

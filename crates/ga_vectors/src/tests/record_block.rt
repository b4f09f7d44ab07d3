//! Blocks of records that are opened, looked at from both ends, and written out, and callers with
//! exact results.
ghost use Rattle.ga_records.specs.Records.{has};
ghost use Rattle.generic_array.specs.Views.{items_of_view};
ghost use Rattle.std.specs.Prelude.{◌≡◌, ◌∷◌, [], IfSome, None, Ok, Some, true};

use crate::tests::numbers::gives;
use crate::tests::sink::{Sink, is_full};
use ga_records::RecordBlock;
use generic_array::{ArrayLength, GenericArrayRef, LengthError, U2, U3, U4};
use std::test::Fail;

/// Where the bytes 2, 1 and 9 stand for the last time in two records of two.
fn last_of_each(bytes: &[u8]) -> Result<[Option<usize>; 3], LengthError>
    requires { bytes.now ≡ 1 ∷ 2 ∷ 3 ∷ 2 ∷ [] }
    ensures { result ≡ Ok (Some 1 ∷ Some 0 ∷ None ∷ []) }
{
    let block: RecordBlock<'_, U2> = RecordBlock::open(bytes)?;
    Ok([block.last_with(2), block.last_with(1), block.last_with(9)])
}

/// The last record with the byte.
fn last_record_with<'a, N: ArrayLength<u8>>(
    block: RecordBlock<'a, N>,
    byte: u8,
) -> Option<GenericArrayRef<'a, u8, N>>
    ensures { IfSome result (λ found. has byte (items_of_view found) ≡ true) }
{
    block.record(block.last_with(byte)?)
}

#[test]
fn records_are_found_by_index(rt: HostRuntime) -> Result<(), Fail> {
    let none: RecordBlock<'_, U2> = RecordBlock::open(&[])?;
    assert!(rt; none.len() == 0 && none.record(0).is_none());
    let pairs: RecordBlock<'_, U2> = RecordBlock::open(&[1, 2, 3, 2])?;
    assert!(rt; pairs.len() == 2 && pairs.record(2).is_none());
    assert!(rt; gives(pairs.record(1).ok_or(()), &[3, 2]));
    Ok(())
}

#[test]
fn records_are_found_by_byte(rt: HostRuntime) -> Result<(), Fail> {
    let none: RecordBlock<'_, U2> = RecordBlock::open(&[])?;
    assert!(rt; none.last_with(0).is_none());
    let pairs: RecordBlock<'_, U2> = RecordBlock::open(&[1, 2, 3, 2])?;
    assert!(rt; pairs.last_with(2) == Some(1) && pairs.last_with(1) == Some(0));
    assert!(rt; pairs.last_with(9).is_none());
    let threes: RecordBlock<'_, U3> = RecordBlock::open(&[7, 7, 7, 0, 7, 0])?;
    assert!(rt; threes.last_with(7) == Some(1) && threes.last_with(0) == Some(1));
    assert!(rt; threes.last_with(5).is_none());
    Ok(())
}

#[test]
fn a_rest_is_no_record(rt: HostRuntime) {
    let odd: Result<RecordBlock<'_, U2>, LengthError> = RecordBlock::open(&[1, 2, 3]);
    assert!(rt; odd.is_err());
}

#[test]
fn records_are_walked_from_both_ends(rt: HostRuntime) -> Result<(), Fail> {
    let pairs: RecordBlock<'_, U2> = RecordBlock::open(&[1, 2, 3, 2])?;
    let copy = pairs;
    for block in [copy, pairs] {
        let mut left = block.iter();
        assert!(rt; gives(left.next_back().ok_or(()), &[3, 2]));
        assert!(rt; gives(left.next().ok_or(()), &[1, 2]) && left.next().is_none());
    }
    Ok(())
}

#[test]
fn records_are_written_whole(rt: HostRuntime) -> Result<(), Fail> {
    for (bytes, writes) in [([].as_slice(), 0), ([1, 2, 3, 2].as_slice(), 1)] {
        let pairs: RecordBlock<'_, U2> = RecordBlock::open(bytes)?;
        let mut sink = Sink::failing_at(rt.alloc(), 0);
        assert!(rt; pairs.write_to(&mut sink).is_ok() && sink.has(bytes, writes));
    }
    Ok(())
}

#[test]
fn a_writers_fault_leaves_the_records(rt: HostRuntime) -> Result<(), Fail> {
    let four: RecordBlock<'_, U4> = RecordBlock::open(b"abcd")?;
    let mut broken = Sink::failing_at(rt.alloc(), 1);
    assert!(rt; is_full(four.write_to(&mut broken)));
    assert!(rt; broken.has(&[], 1) && gives(four.record(0).ok_or(()), b"abcd"));
    Ok(())
}

//! Hex text: its digits, how far the limit lets them come, and the writes, each of which fails in
//! turn.
use crate::tests::sink::{Sink, is_full};
use generic_array::hex_text::write_hex;
use generic_array::{AllocError, arr};
use std::alloc::Global;
use std::test::Fail;

#[test]
fn few_bytes_give_their_digits_as_far_as_the_limit_lets_them(rt: HostRuntime) {
    let cases = [
        (false, None, "0a141e"),
        (true, None, "0A141E"),
        (false, Some(3), "0a1"),
        (true, Some(1), "0"),
        (false, Some(0), ""),
        (false, Some(7), "0a141e"),
    ];
    for (upper, limit, text) in cases {
        let mut sink = Sink::failing_at(rt.alloc(), 0);
        let end = write_hex(&[10, 20, 30], upper, limit, &mut sink);
        assert!(rt; end.is_ok(), "{text}");
        assert!(rt; sink.has(text.as_bytes(), text.len().min(1)), "{text}");
    }
}

#[test]
fn a_limit_of_one_digit_leaves_the_first_half_of_a_byte(rt: HostRuntime) {
    let mut text = Vec::new(rt.alloc());
    assert!(rt; arr![5u8].write_lower_hex(&mut text, Some(1)).is_ok());
    assert!(rt; text.as_slice() == b"0".as_slice());
}

/// The digits of so many bytes 171, as many as the limit lets come.
fn text_up_to(alloc: Global, bytes: usize, limit: usize) -> Result<Vec<u8>, AllocError> {
    let mut text = Vec::new(alloc);
    for _byte in 0..bytes {
        text.extend_from_slice(b"ab")?;
    }
    text.truncate(limit);
    Ok(text)
}

#[test]
fn an_odd_limit_cuts_inside_a_byte(rt: HostRuntime) -> Result<(), Fail> {
    let text = text_up_to(rt.alloc(), 1025, 2049)?;
    let mut sink = Sink::failing_at(rt.alloc(), 0);
    assert!(rt; write_hex(&[171; 1025], false, Some(2049), &mut sink).is_ok());
    assert!(rt; sink.has(text.as_slice(), 2));
    Ok(())
}

#[test]
fn each_write_of_2500_bytes_fails_in_turn(rt: HostRuntime) -> Result<(), Fail> {
    for fails_at in 1..4usize {
        let mut sink = Sink::failing_at(rt.alloc(), fails_at);
        let end = write_hex(&[171; 2500], false, None, &mut sink);
        assert!(rt; is_full(end));
        let text = text_up_to(rt.alloc(), 2500, 2048 * (fails_at - 1))?;
        assert!(rt; sink.has(text.as_slice(), fails_at), "{fails_at}");
    }
    let text = text_up_to(rt.alloc(), 2500, 5000)?;
    let mut sink = Sink::failing_at(rt.alloc(), 4);
    assert!(rt; write_hex(&[171; 2500], false, None, &mut sink).is_ok());
    assert!(rt; sink.has(text.as_slice(), 3));
    Ok(())
}

#[test]
fn a_limit_leaves_writes_out(rt: HostRuntime) -> Result<(), Fail> {
    for (limit, writes) in [(2048, 1), (2049, 2), (0, 0)] {
        let text = text_up_to(rt.alloc(), 2500, limit)?;
        let mut sink = Sink::failing_at(rt.alloc(), 0);
        assert!(rt; write_hex(&[171; 2500], false, Some(limit), &mut sink).is_ok());
        assert!(rt; sink.has(text.as_slice(), writes), "{limit}");
    }
    Ok(())
}

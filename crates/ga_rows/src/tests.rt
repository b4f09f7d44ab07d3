//! Words, texts, statuses and faults; in a file next to it, memory that is refused. Long inputs,
//! streams in each manner and each fault in turn are in `trials/sweeps/ga_rows`.
mod doubles;
mod refused_memory;

use crate::{Mode, Status, Width, parse_words, rows, run, run_listed};
use doubles::{Sink, Source, WHOLE};
use std::alloc::{AllocError, Global};
use std::env::Args;
use std::io;
use std::io::ErrorKind;
use std::process::ExitCode;
use std::test::Fail;

/// The words of a text, which are separated by one space.
fn words_of(alloc: Global, text: &str) -> Result<Vec<String>, AllocError> {
    let mut words = Vec::new(alloc);
    for word in text.split(' ') {
        words.push(String::from_str(alloc, word)?)?;
    }
    Ok(words)
}

#[test]
fn words_mean_a_mode_and_a_width(rt: HostRuntime) -> Result<(), Fail> {
    let cases: &[(&str, Option<(Mode, Width)>)] = &[
        ("hex", Some((Mode::Hex, Width::W4))),
        ("dec 1", Some((Mode::Dec, Width::W1))),
        ("hex 8", Some((Mode::Hex, Width::W8))),
        ("sum 16", Some((Mode::Sum, Width::W16))),
        ("last", Some((Mode::Last, Width::W4))),
        ("dec 3", None),
        ("last 3", None),
        ("4", None),
        ("dec 4 4", None),
    ];
    for (words, meaning) in cases {
        let given = words_of(rt.alloc(), words)?;
        assert!(rt; parse_words(given.as_slice()) == *meaning, "{words}");
    }
    assert!(rt; parse_words(&[]) == Some((Mode::Dec, Width::W4)));
    Ok(())
}

// What is reported of words that mean nothing, where memory is short, and of another fault.
const USAGE: &[u8] = b"usage: ga_rows [dec|hex|back|sum|last] [1|2|4|8|16]\n";

const NO_MEMORY: &[u8] = b"ga_rows: out of memory\n";

const FAULT: &[u8] = b"ga_rows: read or write fault\n";

/// The words as listed, joined by a space, the input, what is printed, and the exit status.
const CASES: &[(&str, &str, &str, u8)] = &[
    ("ga_rows", "abcdefgh", "97 98 99 100\n101 102 103 104\n", 0),
    ("back", "abcdef", "97 98 99 100\nrest 101 102\n", 1),
    ("ga_rows dec", "", "", 0),
    ("ga_rows back", "abcdef", "100 99 98 97\nrest 101 102\n", 1),
    ("ga_rows sum", "\x01\x02\x03\x04d", "10\nrest 100\n", 1),
    ("ga_rows sum 4", "zzzzabcd", "488\n394\n", 0),
    ("ga_rows sum 2", "abcd", "195\n199\n", 0),
    ("ga_rows dec 4", "\0\t\n", "rest 0 9 10\n", 1),
    ("ga_rows 4", "abcd", "", 2),
    ("ga_rows ", "abcd", "", 2),
    ("ga_rows hex 4", "abcd", "61626364\n", 0),
    ("ga_rows back 2", "abcd", "98 97\n100 99\n", 0),
    ("ga_rows dec 3", "abcd", "", 2),
    ("ga_rows hex 04", "abcd", "", 2),
    ("ga_rows Hex", "abcd", "", 2),
    ("ga_rows dec 4 4", "abcd", "", 2),
    ("ga_rows last 2", "abcde", "99 100\n97 98\nrest 101\n", 1),
    ("ga_rows last 3", "abcd", "", 2),
];

/// Whether listed words and an input give this text, the usage where the words mean nothing, and
/// this exit status.
fn gives(
    alloc: Global,
    words: &str,
    mut input: &[u8],
    printed: &str,
    code: u8,
) -> Result<bool, AllocError> {
    let listed = words_of(alloc, words)?;
    let mut out = Vec::new(alloc);
    // The message and the end of its line.
    let (told, writes): (&[u8], usize) = if code == 2 { (USAGE, 2) } else { (b"", 0) };
    let mut err = Sink::new(told, WHOLE, usize::MAX);
    let end = run_listed(
        alloc,
        Ok(listed.into_iter()),
        &mut input,
        &mut out,
        &mut err,
    );
    Ok(
        out.as_slice() == printed.as_bytes()
            && err.has_text()
            && err.writes() == writes
            && end == ExitCode::from(code),
    )
}

#[test]
fn words_and_input_give_texts_and_an_exit_status(rt: HostRuntime) -> Result<(), Fail> {
    for (words, input, printed, code) in CASES {
        assert!(rt;
            gives(rt.alloc(), words, input.as_bytes(), printed, *code)?,
            "{words}"
        );
    }
    Ok(())
}

#[test]
fn words_that_are_not_listed_end_the_program(rt: HostRuntime) {
    let cases = [
        (ErrorKind::OutOfMemory, NO_MEMORY, 3),
        (ErrorKind::InvalidData, FAULT, 4),
    ];
    for (kind, told, code) in cases {
        let mut err = Sink::new(told, WHOLE, usize::MAX);
        let is_ended = ends_unlisted(rt.alloc(), kind, &mut err, code);
        assert!(rt; is_ended && err.has_text() && err.writes() == 2, "{code}");
        // Nothing can be reported: the status is the same, and no more is written.
        let mut err = Sink::new(told, WHOLE, 1);
        let is_ended = ends_unlisted(rt.alloc(), kind, &mut err, code);
        assert!(rt; is_ended && err.writes() == 1, "{code}");
    }
}

/// Whether words that aren't listed end the program with this status, and nothing is printed.
fn ends_unlisted(alloc: Global, kind: ErrorKind, err: &mut Sink<'_>, code: u8) -> bool {
    let listed: io::Result<Args> = Err(io::Error::from(kind));
    let mut input: &[u8] = b"abcd";
    let mut out = Vec::new(alloc);
    let end = run_listed(alloc, listed, &mut input, &mut out, err);
    out.is_empty() && end == ExitCode::from(code)
}

#[test]
fn a_fault_of_standard_error_is_ignored(rt: HostRuntime) -> Result<(), Fail> {
    let listed = words_of(rt.alloc(), "ga_rows none")?;
    let mut input: &[u8] = b"abcd";
    let mut out = Vec::new(rt.alloc());
    let mut err = Sink::new(USAGE, WHOLE, 1);
    let words = Ok(listed.into_iter());
    let end = run_listed(rt.alloc(), words, &mut input, &mut out, &mut err);
    assert!(rt; end == ExitCode::from(2) && err.writes() == 1 && out.is_empty());
    Ok(())
}

/// Whether a fault behind the input, or at the write of this number, ends the program with 4 and a
/// line on standard error, after so many writes.
fn ends_at_a_fault(
    alloc: Global,
    fault: Option<ErrorKind>,
    fails_at: usize,
    writes: usize,
) -> Result<bool, AllocError> {
    let listed = words_of(alloc, "ga_rows dec 4")?;
    let mut source = Source::new(b"abcd", WHOLE, fault);
    let mut sink = Sink::new(b"97 98 99 100\n", WHOLE, fails_at);
    let mut err = Sink::new(FAULT, WHOLE, usize::MAX);
    let words = Ok(listed.into_iter());
    let end = run_listed(alloc, words, &mut source, &mut sink, &mut err);
    Ok(err.has_text() && sink.writes() == writes && end == ExitCode::from(4))
}

#[test]
fn a_fault_of_a_read_or_a_write_ends_the_program(rt: HostRuntime) -> Result<(), Fail> {
    assert!(rt; ends_at_a_fault(rt.alloc(), Some(ErrorKind::Other), usize::MAX, 0)?);
    assert!(rt; ends_at_a_fault(rt.alloc(), None, 1, 1)?);
    Ok(())
}

#[test]
fn a_run_ends_at_the_first_write_that_fails(rt: HostRuntime) {
    for (fails_at, status) in [(1, Status::Fault), (2, Status::Rest)] {
        let mut source = Source::new(&[1, 2, 3, 4, 5, 6], WHOLE, None);
        let mut sink = Sink::new(b"1 2 3 4\nrest 5 6\n", WHOLE, fails_at);
        let end = run(rt.alloc(), &[], &mut source, &mut sink);
        assert!(rt; end == status && sink.writes() == 1, "{fails_at}");
        assert!(rt; sink.has_text() == (status == Status::Rest), "{fails_at}");
    }
}

#[test]
fn a_reader_that_fails_behind_five_bytes_leaves_nothing_written(rt: HostRuntime) {
    let mut source = Source::new(&[1, 2, 3, 4, 5], WHOLE, Some(ErrorKind::Other));
    let mut sink = Sink::new(b"", WHOLE, usize::MAX);
    let end = run(rt.alloc(), &[], &mut source, &mut sink);
    assert!(rt; end == Status::Fault && sink.writes() == 0);
}

#[test]
fn a_fault_of_the_writer_keeps_its_kind(rt: HostRuntime) {
    for mode in &[Mode::Dec, Mode::Hex, Mode::Back, Mode::Sum, Mode::Last] {
        let mut sink = Sink::new(b"", WHOLE, 1);
        let end = rows(&[255, 254, 253, 252], *mode, Width::W4, &mut sink);
        let is_kept = end.is_err_and(|fault| fault.kind() == ErrorKind::StorageFull);
        assert!(rt; is_kept, "{mode:?}");
    }
}

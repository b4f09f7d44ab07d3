//! The program, as a function of its words, a reader and writers.
ghost use Rattle.ga_rows.specs.Arguments.{meaning_of_words};
ghost use Rattle.ga_rows.specs.Ends.{Ends, EndsWithoutWords};
ghost use Rattle.ga_rows.specs.Listed.{ListedAnd};
ghost use Rattle.ga_rows.specs.Status.{ExitsAs};
ghost use Rattle.std.specs.Iterator.{IsFinite};
ghost use Rattle.std.specs.Prelude.{◌≡◌, ◌⊎◌, ◌≤◌, IfOk, map, string_bytes};
ghost use Rattle.std.specs.Process.{exit_status as process_status};

use crate::arguments::{parse_words, words_after_name};
use crate::input::read_all;
use crate::output::rows;
use crate::status::Status;
use std::alloc::Global;
use std::io;
use std::io::{Read, Write};
use std::process::ExitCode;

/// The whole program, from the words that the system lists, the program's name first, to its exit
/// status.
///
/// If that is 2 or more, writes to `e` why, in one line; no clause says so, and a fault of `e` is
/// ignored. Allocates for the words and the input.
pub fn run_listed<I: Iterator<Item = String>, R: Read, W: Write, E: Write>(
    alloc: Global,
    listed: io::Result<I>,
    r: &mut R,
    w: &mut W,
    e: &mut E,
) -> ExitCode
    requires can { IfOk listed I.can_next }
    requires finite { IfOk listed (λ words. IsFinite (I.remaining words)) }
    // As the words mean that were listed, or for want of words.
    ensures ends { ExitsAs (process_status result) (λ status.
        ListedAnd I.next_gives listed (λ meaning.
        Ends R.remaining W.contents meaning status r.old r.new w.old w.new)
        ⊎ EndsWithoutWords listed status r.old r.new w.old w.new) }
    ensures silent { process_status result ≤ 1 → e.new ≡ e.old }
    ensures bound { process_status result ≤ 4 }
{
    let status = match listed {
        Ok(words) => match words_after_name(alloc, words) {
            Ok(words) => run(alloc, words.as_slice(), r, w),
            Err(status) => status,
        },
        Err(fault) => Status::from_listing(fault.kind()),
    };
    if let Some(message) = status.message() {
        let _ = e.writeln(message);
    }
    ExitCode::from(status.code())
}

/// Reads `r` to its end and writes the rows of its bytes.
///
/// Returns `Status::Words` exactly if the words mean nothing, and then reads and writes nothing.
/// At `Status::Memory` nothing is written. At `Status::Fault` nothing is written, or all of `r` is
/// read, where its bytes are known; of another reader the clause says nothing. No clause says that
/// these two come only if the input can't be allocated, or if the reader or the writer fails. An
/// interrupted read is made again; a reader that doesn't end within `u64::MAX` reads counts as
/// faulty. Tests make some 100,000 reads. Allocates for the input alone.
pub fn run<R: Read, W: Write>(alloc: Global, words: &[String], r: &mut R, w: &mut W) -> Status
    ensures { Ends R.remaining W.contents (meaning_of_words (map string_bytes words.now))
        result r.old r.new w.old w.new }
{
    let Some((mode, width)) = parse_words(words) else {
        return Status::Words;
    };
    let input = match read_all(alloc, r) {
        Ok(input) => input,
        Err(status) => return status,
    };
    match rows(input.as_slice(), mode, width, w) {
        Ok(false) => Status::Whole,
        Ok(true) => Status::Rest,
        Err(_) => Status::Fault,
    }
}

//! What the program's words mean.
ghost use Rattle.ga_rows.specs.Arguments.{meaning_of_words, mode_named, width_named};
ghost use Rattle.std.specs.Iterator.{IsFinite};
ghost use Rattle.std.specs.Iterator.Runs.{WholeRun};
ghost use Rattle.std.specs.Prelude.{◌≡◌, IfErr, IfOk, drop, map, string_bytes};

use crate::status::Status;
use std::alloc::Global;

/// The words that are valid, as a line without its end.
pub const USAGE: &str = "usage: ga_rows [dec|hex|back|sum|last] [1|2|4|8|16]";

/// How a row is written, and in which order the rows are.
#[derive(Clone, Copy, Debug, PartialEq, Eq)]
pub enum Mode {
    /// The bytes in decimal, joined by one space.
    Dec,
    /// Two lower digits for each byte, with nothing between them.
    Hex,
    /// As `Dec`, from the last byte to the first.
    Back,
    /// The sum of the bytes, in decimal.
    Sum,
    /// As `Dec`, the last row first.
    Last,
}

impl Mode {
    // The mode of a name.
    fn parse(name: &str) -> Option<Mode>
        ensures { result ≡ mode_named name.now }
    {
        match name {
            "dec" => Some(Mode::Dec),
            "hex" => Some(Mode::Hex),
            "back" => Some(Mode::Back),
            "sum" => Some(Mode::Sum),
            "last" => Some(Mode::Last),
            _ => None,
        }
    }
}

/// How many bytes a row has.
#[derive(Clone, Copy, Debug, PartialEq, Eq)]
pub enum Width {
    /// One byte.
    W1,
    /// Two bytes.
    W2,
    /// Four bytes.
    W4,
    /// Eight bytes.
    W8,
    /// Sixteen bytes.
    W16,
}

impl Width {
    // The width of a number of bytes.
    fn parse(name: &str) -> Option<Width>
        ensures { result ≡ width_named name.now }
    {
        match name {
            "1" => Some(Width::W1),
            "2" => Some(Width::W2),
            "4" => Some(Width::W4),
            "8" => Some(Width::W8),
            "16" => Some(Width::W16),
            _ => None,
        }
    }
}

/// The mode and the width that the words after the program's name mean, or `None` where they
/// mean nothing. A mode's name means rows of four bytes; a second word may say the width. No
/// words mean `dec`.
pub fn parse_words(words: &[String]) -> Option<(Mode, Width)>
    ensures { result ≡ meaning_of_words (map string_bytes words.now) }
{
    match words {
        [] => Some((Mode::Dec, Width::W4)),
        [mode] => Some((Mode::parse(mode.as_str())?, Width::W4)),
        [mode, width] => Some((Mode::parse(mode.as_str())?, Width::parse(width.as_str())?)),
        _ => None,
    }
}

/// All items of `listed` but the first, which is the program's name.
pub fn words_after_name<I: Iterator<Item = String>>(
    alloc: Global,
    listed: I,
) -> Result<Vec<String>, Status>
    requires can { I.can_next listed }
    requires finite { IsFinite (I.remaining listed) }
    ensures ok { IfOk result (λ words.
        WholeRun I.next_gives listed (λ run. words.items ≡ drop 1 run.items)) }
    ensures err { IfErr result (λ status. status ≡ Status.Memory) }
{
    match listed.skip(1).collect(alloc) {
        Ok(words) => Ok(words),
        Err(_) => Err(Status::Memory),
    }
}

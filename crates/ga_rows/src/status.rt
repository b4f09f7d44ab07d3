//! How the program ends: its exit status, its text on standard error, and what a fault means.
ghost use Rattle.ga_rows.specs.Status.{exit_status, message_of};
ghost use Rattle.std.specs.Option.{option_map};
ghost use Rattle.std.specs.Prelude.{◌≡◌, ◌≢◌, ◌↔◌, IfErr, IsOk};

use crate::arguments::USAGE;
use std::io::ErrorKind;

/// How the program ends.
#[derive(Clone, Copy, Debug, PartialEq, Eq)]
pub enum Status {
    /// All bytes stood in whole rows.
    Whole,
    /// A rest was written.
    Rest,
    /// The words mean nothing.
    Words,
    /// No memory for the words or the input.
    Memory,
    /// Listing the words, a read or a write failed.
    Fault,
}

impl Status {
    /// The exit status, from 0 to 4 in the order above.
    pub fn code(self) -> u8
        ensures { result ≡ exit_status self }
    {
        match self {
            Status::Whole => 0,
            Status::Rest => 1,
            Status::Words => 2,
            Status::Memory => 3,
            Status::Fault => 4,
        }
    }

    /// The text on standard error, without the end of its line, or `None` where there is none.
    pub fn message(self) -> Option<&'static str>
        ensures { option_map (λ text. text.now) result ≡ message_of self }
    {
        match self {
            Status::Whole | Status::Rest => None,
            Status::Words => Some(USAGE),
            Status::Memory => Some("ga_rows: out of memory"),
            Status::Fault => Some("ga_rows: read or write fault"),
        }
    }

    /// What it means that the words could not be listed.
    pub fn from_listing(kind: ErrorKind) -> Status
        ensures memory { (result ≡ Status.Memory) ↔ (kind ≡ ErrorKind.OutOfMemory) }
        ensures fault { (result ≡ Status.Fault) ↔ (kind ≢ ErrorKind.OutOfMemory) }
    {
        if kind == ErrorKind::OutOfMemory {
            Status::Memory
        } else {
            Status::Fault
        }
    }
}

/// Whether reading goes on after a read that failed: an interrupted one is asked again.
pub fn after_failed_read(kind: ErrorKind) -> Result<(), Status>
    ensures goes_on { IsOk result ↔ (kind ≡ ErrorKind.Interrupted) }
    ensures err { IfErr result (λ status. status ≡ Status.Fault) }
{
    if kind == ErrorKind::Interrupted {
        Ok(())
    } else {
        Err(Status::Fault)
    }
}

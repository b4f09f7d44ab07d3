//! A reader and a writer that go in parts, are interrupted, and fail. The tests of hex text and
//! records in `trials/sweeps/texts` have this file too.
use std::io;
use std::io::{ErrorKind, Read, Write};

/// At most `step` bytes go at a call. The first of each `period` calls is interrupted, none where
/// that is 0, and so are `times` calls from the number `once` on, which counts from 1.
#[derive(Clone, Copy)]
pub struct Manner {
    pub step: usize,
    pub period: usize,
    pub once: usize,
    pub times: usize,
}

impl Manner {
    // Whether the call of this number, from 1, is interrupted.
    fn interrupts(self, call: usize) -> bool {
        call.wrapping_sub(self.once) < self.times || call.checked_rem(self.period) == Some(1)
    }
}

/// All that is asked for at each call.
pub const WHOLE: Manner = Manner {
    step: usize::MAX,
    period: 0,
    once: 0,
    times: 1,
};

/// Gives its bytes, and at last fails or ends.
#[derive(Drop)]
pub struct Source<'a> {
    bytes: &'a [u8],
    manner: Manner,
    fault: Option<ErrorKind>,
    reads: usize,
}

impl<'a> Source<'a> {
    /// How many reads there were.
    pub fn reads(&self) -> usize {
        self.reads
    }

    /// A reader of these bytes, which fails behind them with this kind or ends.
    pub fn new(bytes: &'a [u8], manner: Manner, fault: Option<ErrorKind>) -> Self {
        Source {
            bytes,
            manner,
            fault,
            reads: 0,
        }
    }
}

impl Read for Source<'_> {
    fn read(&mut self, buf: &mut [u8]) -> io::Result<usize> {
        self.reads = self.reads.saturating_add(1);
        if self.manner.interrupts(self.reads) {
            return Err(io::Error::from(ErrorKind::Interrupted));
        }
        if let (true, Some(kind)) = (self.bytes.is_empty(), self.fault) {
            return Err(io::Error::from(kind));
        }
        let count = self.manner.step.min(self.bytes.len()).min(buf.len());
        let (given, left) = self.bytes.split_at(count);
        buf[..count].copy_from_slice(given);
        self.bytes = left;
        Ok(count)
    }
}

/// Compares what it takes with the text that is to come, counts its calls, notes an empty one, and
/// fails at one of them.
#[derive(Drop)]
pub struct Sink<'a> {
    to_come: &'a [u8],
    is_exact: bool,
    manner: Manner,
    fails_at: usize,
    writes: usize,
}

impl<'a> Sink<'a> {
    /// A writer that expects this text, and fails at the call of this number with `StorageFull`.
    pub fn new(text: &'a [u8], manner: Manner, fails_at: usize) -> Self {
        Sink {
            to_come: text,
            is_exact: true,
            manner,
            fails_at,
            writes: 0,
        }
    }

    /// How many calls there were.
    pub fn writes(&self) -> usize {
        self.writes
    }

    /// Whether the text was taken and nothing else, with no empty write.
    pub fn has_text(&self) -> bool {
        self.is_exact && self.to_come.is_empty()
    }

    /// Whether a beginning of the text was taken and nothing else, with no empty write.
    pub fn has_beginning(&self) -> bool {
        self.is_exact
    }
}

impl Write for Sink<'_> {
    fn write(&mut self, buf: &[u8]) -> io::Result<usize> {
        self.writes = self.writes.saturating_add(1);
        if buf.is_empty() {
            self.is_exact = false;
        }
        if self.writes == self.fails_at {
            return Err(io::Error::from(ErrorKind::StorageFull));
        }
        if self.manner.interrupts(self.writes) {
            return Err(io::Error::from(ErrorKind::Interrupted));
        }
        let taken = &buf[..buf.len().min(self.manner.step)];
        match self.to_come.strip_prefix(taken) {
            Some(to_come) => self.to_come = to_come,
            None => self.is_exact = false,
        }
        Ok(taken.len())
    }

    fn flush(&mut self) -> io::Result<()> {
        self.writes = self.writes.saturating_add(1);
        Ok(())
    }
}

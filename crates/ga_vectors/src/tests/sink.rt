//! A writer that fails at one of its writes.
use std::alloc::Global;
use std::io;
use std::io::ErrorKind;

/// Keeps what it takes, and counts its writes, and a flush as one.
#[derive(Drop)]
pub struct Sink {
    pub text: Vec<u8>,
    pub writes: usize,
    fails_at: usize,
}

impl Sink {
    /// Fails at the write of this number, from 1, with the kind `StorageFull`; at none if it is 0.
    pub fn failing_at(alloc: Global, number: usize) -> Self {
        Sink {
            text: Vec::new(alloc),
            writes: 0,
            fails_at: number,
        }
    }

    /// Whether it was given this text in so many writes, the one that failed among them.
    pub fn has(&self, text: &[u8], writes: usize) -> bool {
        self.text.as_slice() == text && self.writes == writes
    }
}

impl io::Write for Sink {
    fn write(&mut self, buf: &[u8]) -> io::Result<usize> {
        self.flush()?;
        self.text.extend_from_slice(buf)?;
        Ok(buf.len())
    }

    fn flush(&mut self) -> io::Result<()> {
        self.writes = self.writes.saturating_add(1);
        if self.writes == self.fails_at {
            return Err(io::Error::from(ErrorKind::StorageFull));
        }
        Ok(())
    }
}

/// Whether a write failed as a `Sink` fails.
pub fn is_full(end: io::Result<()>) -> bool {
    matches!(end, Err(fault) if fault.kind() == ErrorKind::StorageFull)
}

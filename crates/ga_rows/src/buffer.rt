//! Text that a writer has not been given yet.
ghost use Rattle.std.specs.Prelude.{◌≡◌, ◌+◌, ◌-◌, ◌<◌, ◌≤◌, ◌↔◌, [], ◌∷◌, ◌++◌, IsOk, IsTrue, OnErr, OnOk, Some, length, min, take};

mod decimal;

use std::io;
use std::io::{ErrorKind, Write};
use std::marker::Model;

/// How many bytes a piece of text may have.
pub const PIECE_SIZE: usize = 8192;

/// A piece of text of at most `PIECE_SIZE` bytes, kept in the value itself. Contracts see it as the
/// list of its bytes.
#[derive(Drop)]
pub struct Piece {
    bytes: [u8; PIECE_SIZE],
    len: usize,
}

impl Model for Piece {
    ghost use Rattle.ga_rows.specs.declared.buffer.TheConstants.{PIECE_SIZE};
    ghost use Rattle.std.specs.Prelude.{ℕ, ◌≤◌, List, take};

    ghost Value = { List ℕ };

    ghost view = { λ piece. take piece.len piece.bytes };

    ghost invariant = { λ piece. piece.len ≤ PIECE_SIZE };
}

impl Piece {
    /// A piece without text.
    pub fn new() -> Self
        ensures { result ≡ [] }
    {
        Piece {
            bytes: [0; PIECE_SIZE],
            len: 0,
        }
    }

    /// The text.
    pub fn as_slice(&self) -> &[u8]
        ensures { result.now ≡ self.now }
    {
        &self.bytes[..self.len]
    }

    /// Whether `more` bytes fit behind the text.
    pub fn has_room(&self, more: usize) -> bool
        requires { more ≤ PIECE_SIZE }
        ensures { IsTrue result ↔ (length self.now + more ≤ PIECE_SIZE) }
    {
        self.len <= PIECE_SIZE - more
    }

    /// Forgets the text.
    pub fn clear(&mut self)
        ensures { self.new ≡ [] }
    {
        self.len = 0;
    }

    /// Appends one byte. There is room.
    #[inline]
    pub fn push(&mut self, byte: u8)
        requires { length self.old < PIECE_SIZE }
        ensures { self.new ≡ self.old ++ byte ∷ [] }
    {
        // Read once: to the compiler, the byte might lie over the length.
        let len = self.len;
        self.bytes[len] = byte;
        self.len = len + 1;
    }

    /// Appends a text. There is room.
    pub fn push_text(&mut self, text: &str)
        requires { length self.old + length text.now ≤ PIECE_SIZE }
        ensures { self.new ≡ self.old ++ text.now }
    {
        for byte in text.as_bytes() {
            self.push(*byte);
        }
    }
}

/// Takes what fits behind the text, `write_all` all or none, and fails nowhere else.
impl Write for Piece {
    ghost contents = { λ piece. Some piece };

    #[inline]
    fn write(&mut self, buf: &[u8]) -> io::Result<usize>
        ensures count { result ≡ Ok (min (length buf.now) (PIECE_SIZE - length self.old)) }
        ensures text { self.new ≡ self.old ++ take (PIECE_SIZE - length self.old) buf.now }
    {
        let count = buf.len().min(PIECE_SIZE - self.len);
        self.bytes[self.len..self.len + count].copy_from_slice(&buf[..count]);
        self.len += count;
        Ok(count)
    }

    #[inline]
    fn write_all(&mut self, buf: &[u8]) -> io::Result<()>
        ensures fits { IsOk result ↔ (length self.old + length buf.now ≤ PIECE_SIZE) }
        ensures text { OnOk result (self.new ≡ self.old ++ buf.now) }
        ensures err { OnErr result (self.new ≡ self.old) }
    {
        // Read once, as in `push`.
        let len = self.len;
        if buf.len() > PIECE_SIZE - len {
            return Err(io::Error::from(ErrorKind::WriteZero));
        }
        self.bytes[len..len + buf.len()].copy_from_slice(buf);
        self.len = len + buf.len();
        Ok(())
    }

    fn flush(&mut self) -> io::Result<()>
        ensures ok { IsOk result }
        ensures same { self.new ≡ self.old }
    {
        Ok(())
    }
}

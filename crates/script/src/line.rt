// An answer's line on its way out, in a room of its own: so it needs no memory, which could run out.
ghost use Rattle.std.specs.Prelude.{◌≡◌, ◌≤◌};

use std::io;
use std::io::Write;

// How many bytes wait at the most.
const ROOM: usize = 128;

// What waits to be written. What cannot be written is passed over, and the script goes on.
#[derive(Drop)]
pub(crate) struct Line<W: Write + Drop> {
    to: W,
    bytes: [u8; ROOM],
    len: usize,
    ghost fits: { len ≤ 128 },
}

impl<W: Write + Drop> Line<W> {
    pub(crate) fn new(to: W) -> Line<W> {
        Line {
            to,
            bytes: [0; ROOM],
            len: 0,
        }
    }

    pub(crate) fn hand_on(&mut self)
        ensures { self.new.len ≡ 0 }
    {
        let _ = self.to.write_all(&self.bytes[..self.len]);
        self.len = 0;
    }

    // One more byte; a full room is handed on first.
    fn push(&mut self, byte: u8) {
        if self.len == ROOM {
            self.hand_on();
        }
        self.bytes[self.len] = byte;
        self.len += 1;
    }
}

impl<W: Write + Drop> Write for Line<W> {
    fn write(&mut self, bytes: &[u8]) -> io::Result<usize> {
        self.write_all(bytes)?;
        Ok(bytes.len())
    }

    fn write_all(&mut self, bytes: &[u8]) -> io::Result<()> {
        for byte in bytes {
            self.push(*byte);
        }
        Ok(())
    }

    fn flush(&mut self) -> io::Result<()> {
        self.hand_on();
        Ok(())
    }
}

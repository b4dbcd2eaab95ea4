// Lines that are to be written, and writing them. The session calls it; nothing here runs an order.

ghost use Rattle.std.specs.Prelude.{◌≡◌, ◌+◌, ◌≤◌, ◌<◌, Bool, true, length, IfOk, OnOk, OnErr};
ghost use Rattle.std.specs.Io.{WritesAtMost};
ghost use Rattle.std.specs.Io.KnownBytes.{Appends, WriteAppends};
ghost use Rattle.report.specs.Line.{max_line};
ghost use Rattle.streams.specs.Writing.{AppendsFront, Moves, pending};

use report::MAX_LINE;
use std::io::{self, ErrorKind, Stdout, Write};

// The bytes of the buffer of lines.
const LINES_BYTES: usize = 65_536;

// A writer, with what its type may know of its writes: whether one may have failed, and that none has, without which none is made.
// Where nothing is known, one may have failed at any time and yet another be made.
pub trait Output: Write {
    ghost failed: { Self → Bool } = { λ _. true };

    ghost intact: { Self → Bool } = { λ _. true };

    // Writes some of the bytes, from the first on, and answers how many; of bytes that there are none only where a write fails.
    fn write_once(&mut self, bytes: &[u8]) -> io::Result<usize>
        requires { intact self.old ≡ true }
        ensures bound { WritesAtMost result bytes.now }
        ensures written { WriteAppends (Self.contents self.old) (Self.contents self.new) result bytes.now }
        ensures intact { OnOk result (intact self.new ≡ true) }
        ensures none { IfOk result (λ n. n ≡ 0 → 0 < length bytes.now → failed self.new ≡ true) }
        ensures fails { OnErr result (failed self.new ≡ true) };
}

impl Output for Stdout {
    fn write_once(&mut self, bytes: &[u8]) -> io::Result<usize> {
        self.write(bytes)
    }
}

// Writes the bytes: all of them, or where a write fails some, from the first on.
pub fn write_whole<W: Output>(output: &mut W, bytes: &[u8]) -> io::Result<()>
    requires { W.intact output.old ≡ true }
    ensures intact { OnOk result (W.intact output.new ≡ true) }
    ensures whole { OnOk result (Appends (W.contents output.old) (W.contents output.new) bytes.now) }
    ensures front { AppendsFront (W.contents output.old) (W.contents output.new) bytes.now }
    ensures fails { OnErr result (W.failed output.new ≡ true) }
{
    let mut done = 0;
    while done < bytes.len() {
        match output.write_once(&bytes[done..])? {
            0 => return Err(io::Error::from(ErrorKind::WriteZero)),
            written => done += written,
        }
    }
    Ok(())
}

// The lines that are to be written, and the place of the next.
#[derive(Drop)]
pub struct Lines {
    pub bytes: [u8; LINES_BYTES],
    pub used: usize,
    pub place: u64,
}

impl Lines {
    // No line; the next is the first order's.
    pub fn new() -> Lines
        ensures none { result.used ≡ 0 }
        ensures first { result.place ≡ 1 }
    {
        Lines {
            bytes: [0; LINES_BYTES],
            used: 0,
            place: 1,
        }
    }

    // Writes the lines out and begins the buffer again.
    pub fn write_out<W: Output>(&mut self, output: &mut W) -> io::Result<()>
        requires within { self.old.used ≤ length self.old.bytes }
        requires intact { W.intact output.old ≡ true }
        ensures intact { OnOk result (W.intact output.new ≡ true) }
        ensures place { self.new.place ≡ self.old.place }
        ensures none { OnOk result (self.new.used ≡ 0) }
        ensures room { OnOk result (self.new.used + max_line ≤ length self.new.bytes) }
        ensures whole { OnOk result (Appends (W.contents output.old) (W.contents output.new) (pending self.old)) }
        ensures front { AppendsFront (W.contents output.old) (W.contents output.new) (pending self.old) }
        ensures fails { OnErr result (W.failed output.new ≡ true) }
    {
        write_whole(output, &self.bytes[..self.used])?;
        self.used = 0;
        Ok(())
    }

    // Writes the lines out where another might not fit behind them.
    pub fn make_room<W: Output>(&mut self, output: &mut W) -> io::Result<()>
        requires within { self.old.used ≤ length self.old.bytes }
        requires intact { W.intact output.old ≡ true }
        ensures intact { OnOk result (W.intact output.new ≡ true) }
        ensures place { self.new.place ≡ self.old.place }
        ensures room { OnOk result (self.new.used + max_line ≤ length self.new.bytes) }
        ensures moves { OnOk result (Moves (W.contents output.old) (W.contents output.new) (pending self.old) (pending self.new)) }
        ensures front { AppendsFront (W.contents output.old) (W.contents output.new) (pending self.old) }
        ensures fails { OnErr result (W.failed output.new ≡ true) }
    {
        if self.bytes.len() - self.used < MAX_LINE {
            self.write_out(output)?;
        }
        Ok(())
    }
}

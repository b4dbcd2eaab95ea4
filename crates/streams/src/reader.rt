// Reading: once, until a buffer is full, and the first bytes of a session. The session calls it; nothing here looks at an order.

ghost use Rattle.std.specs.Prelude.{◌≡◌, ◌≤◌, ◌<◌, Bool, true, length, take, IfOk, OnErr};
ghost use Rattle.std.specs.Io.{ReadsAtMost};
ghost use Rattle.std.specs.Io.KnownBytes.{Consumes, IsAtEnd};
ghost use Rattle.layout.specs.Layout.{order_bytes};
ghost use Rattle.streams.specs.Reading.{cut_short, ComesBehind, TakesStart, kept, block_bytes};

use layout::{COUNT_BYTES, FIRST_BYTES, ORDER_BYTES};
use opening::rest_size;
use std::io::{self, Read, Stdin};

// A reader, with what its type may know of its reads: whether one of them may have failed, and whether one read alone took it from one
// state to another. Where nothing is known, both may be at any time; bytes in memory have no read that fails.
pub trait Input: Read {
    ghost failed: { Self → Bool } = { λ _. true };

    ghost once: { Self → Self → Bool } = { λ _ _. true };

    // Reads once, and answers how many bytes came; none only at the input's end.
    fn read_once(&mut self, buffer: &mut [u8]) -> io::Result<usize>
        ensures bound { ReadsAtMost result buffer.new }
        ensures came { IfOk result (λ n. Consumes (Self.remaining self.old) (Self.remaining self.new) (take n buffer.new)) }
        ensures end { IfOk result (λ n. n ≡ 0 → 0 < length buffer.old → IsAtEnd (Self.remaining self.new)) }
        ensures once { once self.old self.new ≡ true }
        ensures fails { OnErr result (failed self.new ≡ true) };
}

impl Input for Stdin {
    fn read_once(&mut self, buffer: &mut [u8]) -> io::Result<usize> {
        self.read(buffer)
    }
}

// Reads until the buffer is full or the input ends, and answers how many bytes stand at its start then.
pub fn read_full<R: Input>(input: &mut R, buffer: &mut [u8]) -> io::Result<usize>
    ensures bound { ReadsAtMost result buffer.new }
    ensures came { IfOk result (λ n. Consumes (R.remaining input.old) (R.remaining input.new) (take n buffer.new)) }
    ensures end { IfOk result (λ n. n < length buffer.old → IsAtEnd (R.remaining input.new)) }
    ensures fails { OnErr result (R.failed input.new ≡ true) }
{
    let mut done = 0;
    while done < buffer.len() {
        match input.read_once(&mut buffer[done..])? {
            0 => return Ok(done),
            came => done += came,
        }
    }
    Ok(done)
}

// The bytes of a block of orders.
const BLOCK_BYTES: usize = 65_536;

// The bytes of orders that have come and are not answered yet.
#[derive(Drop)]
pub struct Block {
    pub bytes: [u8; BLOCK_BYTES],
    pub kept: usize,
}

impl Block {
    // No byte has come.
    pub fn new() -> Block
        ensures { result.kept ≡ 0 }
    {
        Block {
            bytes: [0; BLOCK_BYTES],
            kept: 0,
        }
    }

    // Reads once, behind the bytes that are kept, and answers how many stand in the block then; no more only at the input's end.
    #[tactic(auto, using(crate::proofs::Came::came_behind))]
    pub fn read_more<R: Input>(&mut self, input: &mut R) -> io::Result<usize>
        requires { self.old.kept < order_bytes }
        ensures kept { self.new.kept ≡ self.old.kept }
        ensures within { IfOk result (λ size. size ≤ block_bytes) }
        ensures came { IfOk result (λ size. ComesBehind (R.remaining input.old) (R.remaining input.new) (kept self.old) (take size self.new.bytes)) }
        ensures end { IfOk result (λ size. size ≡ self.old.kept → IsAtEnd (R.remaining input.new)) }
        ensures fails { OnErr result (R.failed input.new ≡ true) }
        ensures once { R.once input.old input.new ≡ true }
    {
        let came = input.read_once(&mut self.bytes[self.kept..])?;
        Ok(self.kept + came)
    }

    // Keeps what is cut short of the bytes that stand in the block.
    #[tactic(auto, using(crate::proofs::Came::moved_down))]
    pub fn keep(&mut self, size: usize)
        requires { size ≤ block_bytes }
        ensures short { self.new.kept < order_bytes }
        ensures bytes { kept self.new ≡ cut_short (take size self.old.bytes) }
    {
        self.kept = size % ORDER_BYTES;
        self.bytes.copy_within(size - self.kept..size, 0);
    }
}

// Reads the first byte of a session, the guard and as many link records as the first byte counts; answers how many bytes came. Behind
// a count out of range there is nothing to wait for.
pub fn read_start<R: Input>(input: &mut R, first: &mut [u8; FIRST_BYTES]) -> io::Result<usize>
    ensures bound { ReadsAtMost result first.new }
    ensures start { IfOk result (λ n. TakesStart (R.remaining input.old) (R.remaining input.new) (take n first.new)) }
    ensures fails { OnErr result (R.failed input.new ≡ true) }
{
    if read_full(input, &mut first[..COUNT_BYTES])? == 0 {
        return Ok(0);
    }
    let Some(size) = rest_size(first[0]) else {
        return Ok(COUNT_BYTES);
    };
    let came = read_full(input, &mut first[COUNT_BYTES..COUNT_BYTES + size])?;
    Ok(COUNT_BYTES + came)
}

// A reader read and a writer written as far as they do it; a call that a signal interrupts is taken up again.
//
// What comes after each call, by its answer, is an equation (`after`). No contract can say which answers the system gave: those of `receive`
// and `send` say that there are answers that the contracts of read and write allow and that end the transfer so (`Transfers`). That the calls
// are made, on the right bytes, they say wherever the type of the reader or of the writer says what bytes it holds (`Receives`, `Sends`), as
// one over memory does. Those of standard input and standard output say none: there it is seen in `receive_some` and `send_some` and tested.
#![tactic(auto)]

ghost use Rattle.std.specs.Prelude.{◌≡◌, ◌-◌, ◌<◌, ◌≤◌, length, take};
ghost use Rattle.std.specs.Io.KnownBytes.{Consumes, Appends};
ghost use Rattle.streams.specs.Transfers.{Moved, at_first, is_interruption, after_failure, after_call, Answered, Transfers};
ghost use Rattle.streams.specs.MovedBytes.{part_moved, EndsAfter, Receives, ReceivesAll, Sends};

use std::io;
use std::io::{ErrorKind, Read, Write};

// The interruptions of one transfer that are borne: the next one counts as a failure, so that every transfer ends.
pub const MOST_INTERRUPTIONS: u64 = 1000000;

// What is left of a transfer: so many bytes to move, and so many interruptions that are still borne.
#[derive(Clone, Copy, Debug, PartialEq, Eq)]
pub(crate) struct Left {
    bytes: usize,
    interruptions: u64,
}

impl Left {
    // All of a buffer with so many bytes.
    fn all(bytes: usize) -> Left
        ensures { result ≡ at_first bytes }
    {
        Left {
            bytes,
            interruptions: MOST_INTERRUPTIONS,
        }
    }
}

// What is left after a call for the bytes that were left, by its answer; nothing where the call moved none.
fn after(left: Left, answer: io::Result<usize>) -> io::Result<Option<Left>>
    requires { Moved left.bytes answer }
    ensures { result ≡ after_call left answer }
{
    match answer {
        Ok(0) => Ok(None),
        Ok(moved) => Ok(Some(Left {
            bytes: left.bytes - moved,
            interruptions: left.interruptions,
        })),
        Err(error) => after_failure(left, error),
    }
}

// What is left after a call that failed, by its error.
fn after_failure(left: Left, error: io::Error) -> io::Result<Option<Left>>
    ensures { result ≡ after_failure (is_interruption error) error left }
{
    if error.kind() != ErrorKind::Interrupted || left.interruptions == 0 {
        return Err(error);
    }
    Ok(Some(Left {
        bytes: left.bytes,
        interruptions: left.interruptions - 1,
    }))
}

// One read into the last bytes of the buffer.
fn receive_some<R: Read>(reader: &mut R, input: &mut [u8], left: Left) -> io::Result<Option<Left>>
    requires { left.bytes ≤ length input.old }
    ensures answered { Answered left result }
    ensures bytes { Consumes (R.remaining reader.old) (R.remaining reader.new) (part_moved left.bytes result input.new) }
    ensures front { let from = length input.old - left.bytes in take from input.new ≡ take from input.old }
    ensures end { 0 < left.bytes → EndsAfter (R.remaining reader.new) result }
{
    let from = input.len() - left.bytes;
    let answer = reader.read(&mut input[from..]);
    after(left, answer)
}

// One write of the last bytes of the buffer.
fn send_some<W: Write>(writer: &mut W, output: &[u8], left: Left) -> io::Result<Option<Left>>
    requires { left.bytes ≤ length output.now }
    ensures answered { Answered left result }
    ensures bytes { Appends (W.contents writer.old) (W.contents writer.new) (part_moved left.bytes result output.now) }
{
    let from = output.len() - left.bytes;
    let answer = writer.write(&output[from..]);
    after(left, answer)
}

// Reads into the buffer, until it is full or a call moves nothing, at the end of the input: how many bytes were moved.
pub fn receive<R: Read>(reader: &mut R, input: &mut [u8]) -> io::Result<usize>
    ensures transfers { Transfers (length input.old) (at_first (length input.old)) result }
    ensures bytes { Receives (R.remaining reader.old) (R.remaining reader.new) input.new result }
    ensures end { ReceivesAll (length input.old) (R.remaining reader.new) result }
{
    let mut left = Left::all(input.len());
    while left.bytes > 0 {
        match receive_some(reader, input, left)? {
            Some(rest) => left = rest,
            None => return Ok(input.len() - left.bytes),
        }
    }
    Ok(input.len())
}

// Writes the buffer, until all of it is written or a call moves nothing, where the output takes no more: how many bytes were moved.
// It goes round as `receive` does. One loop for both would take a closure, but a proof knows nothing of what a closure has borrowed and changed;
// or a trait with two structs of references, which is longer than the loop.
pub fn send<W: Write>(writer: &mut W, output: &[u8]) -> io::Result<usize>
    ensures transfers { Transfers (length output.now) (at_first (length output.now)) result }
    ensures bytes { Sends (W.contents writer.old) (W.contents writer.new) output.now result }
{
    let mut left = Left::all(output.len());
    while left.bytes > 0 {
        match send_some(writer, output, left)? {
            Some(rest) => left = rest,
            None => return Ok(output.len() - left.bytes),
        }
    }
    Ok(output.len())
}

#[cfg(test)]
mod tests;

// Each transfer over memory, and with calls that move parts, are interrupted or fail.
ghost use Rattle.std.specs.Prelude.{◌≤◌, IfOk, length};

use super::{receive, send};
use std::io;
use std::io::{Read, Write};

// EINTR and EIO.
const INTERRUPTED: i32 = 4;

const INPUT_OUTPUT_ERROR: i32 = 5;

// What a call does: it moves at most so many bytes, or fails with this number.
#[derive(Clone, Copy)]
enum Answer {
    Moves(usize),
    Fails(i32),
}

// A stream whose calls answer so, one after the other, and which then moves nothing.
#[derive(Drop)]
struct Scripted<'a>(&'a [Answer]);

impl<'a> Scripted<'a> {
    fn answer(&mut self, room: usize) -> io::Result<usize>
        ensures { IfOk result (λ n. n ≤ room) }
    {
        let (first, others) = match self.0.split_first() {
            None => return Ok(0),
            Some(parts) => parts,
        };
        self.0 = others;
        match *first {
            Answer::Moves(most) => Ok(room.min(most)),
            Answer::Fails(number) => Err(io::Error::from_raw_os_error(number)),
        }
    }
}

impl<'a> Read for Scripted<'a> {
    fn read(&mut self, buf: &mut [u8]) -> io::Result<usize> {
        self.answer(buf.len())
    }
}

impl<'a> Write for Scripted<'a> {
    fn write(&mut self, buf: &[u8]) -> io::Result<usize> {
        self.answer(buf.len())
    }

    fn flush(&mut self) -> io::Result<()> {
        Ok(())
    }
}

// How a transfer ended, in a form that compares: all was moved, so many bytes were left, or an error's number.
#[derive(Clone, Copy, PartialEq, Debug)]
enum Summary {
    Full,
    Left(usize),
    Failed(Option<i32>),
}

fn summed_up(moved: io::Result<usize>, bytes: usize) -> Summary {
    match moved {
        Ok(count) if count == bytes => Summary::Full,
        Ok(count) => Summary::Left(bytes.saturating_sub(count)),
        Err(error) => Summary::Failed(error.raw_os_error()),
    }
}

// How a transfer of 10 bytes ends either way, by calls that answer so.
fn both(answers: &[Answer]) -> (Summary, Summary) {
    let mut input = [0u8; 10];
    let received = summed_up(receive(&mut Scripted(answers), &mut input), 10);
    (
        received,
        summed_up(send(&mut Scripted(answers), &input), 10),
    )
}

#[test]
fn memory_is_moved(rt: HostRuntime) {
    let mut input = [0u8; 4];
    let mut source: &[u8] = b"abc";
    assert_eq!(rt;
        summed_up(receive(&mut source, &mut input), 4),
        Summary::Left(1)
    );
    assert_eq!(rt; &input[..], &b"abc\0"[..]);
    let mut written = Vec::new(rt.alloc());
    assert_eq!(rt; summed_up(send(&mut written, &input), 4), Summary::Full);
    assert_eq!(rt; written.as_slice(), &b"abc\0"[..]);
}

#[test]
fn answers_are_told(rt: HostRuntime) {
    let moves = Answer::Moves(4);
    let interrupted = Answer::Fails(INTERRUPTED);
    let fails = Answer::Fails(INPUT_OUTPUT_ERROR);
    let failed = Summary::Failed(Some(INPUT_OUTPUT_ERROR));
    assert_eq!(rt;
        both(&[moves, moves, moves]),
        (Summary::Full, Summary::Full)
    );
    assert_eq!(rt;
        both(&[moves, interrupted, interrupted, moves, moves]),
        (Summary::Full, Summary::Full)
    );
    assert_eq!(rt; both(&[moves, moves]), (Summary::Left(2), Summary::Left(2)));
    assert_eq!(rt;
        both(&[moves, Answer::Moves(0), fails]),
        (Summary::Left(6), Summary::Left(6))
    );
    assert_eq!(rt; both(&[moves, interrupted, fails, moves]), (failed, failed));
}

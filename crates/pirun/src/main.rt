// The program: reads an image and its starting values from standard input, runs it, and writes the answer to standard output. A stream that
// fails is said on standard error: without a whole input there is no answer.
#![tactic(auto)]

use answer::{ANSWER_BYTES, MOST_INPUT_BYTES};
use arrayvec::ArrayString;
use std::env::{Env, FillError};
use std::fmt::Write;
use std::io;

// One byte more than the largest input that fits, so a longer input is cut at a byte count that fits nothing and is refused.
const INPUT_ROOM: usize = MOST_INPUT_BYTES + 1;

// The room for an error's text. The longest that the system has is some 60 bytes.
const REASON_ROOM: usize = 256;

// Whether the program was given an argument after its own name.
fn has_argument(rt: &impl Env) -> bool {
    match rt.arg(1, &mut []) {
        Err(FillError::NotPresent) => false,
        _ => true,
    }
}

// The program takes no arguments: whoever gives one is told what it does.
fn help(rt: &impl Eprint) {
    let _ = rt.eprint(
        "pirun: runs a routine of the Pi automaton

usage: pirun <INPUT >ANSWER

It takes no arguments. INPUT is the image as 32-bit words, least byte first, and
then 8 bytes for the starting value of each register. ANSWER is a line for the
outcome, one for the steps, and one for each register. A refusal is an answer
too; the README lists refusals by number. A stream that fails is said on standard
error, and the answer is then missing or cut.
",
    );
}

// The system's reason, which stands in an error's text before its number.
fn reason(text: &str) -> &str {
    match text.split_once(" (os error ") {
        Some((reason, _)) => reason,
        None => text,
    }
}

// Says what failed, and why.
fn fail(rt: &impl Eprint, what: &str, error: io::Error) {
    let mut text = ArrayString::<REASON_ROOM>::new();
    let _ = write!(text, "{error}");
    let reason = reason(text.as_str());
    let _ = eprintln!(rt; "{what}: {reason}");
}

// Runs the whole input and writes the answer.
fn respond(rt: &HostRuntime, input: &[u8]) {
    let mut output = [0u8; ANSWER_BYTES];
    let length = answer::answer(input, &mut output);
    match streams::send(&mut rt.stdout(), &output[..length]) {
        Ok(moved) => {
            if moved < length {
                let _ = rt.eprintln(
                    "pirun: the answer could not be written whole: standard output takes no more",
                );
            }
        }
        Err(error) => fail(rt, "pirun: the answer could not be written whole", error),
    }
}

fn main(rt: HostRuntime) {
    if has_argument(&rt) {
        help(&rt);
        return;
    }
    let mut input = [0u8; INPUT_ROOM];
    match streams::receive(&mut rt.stdin(), &mut input) {
        Ok(count) => respond(&rt, &input[..count]),
        Err(error) => fail(
            &rt,
            "pirun: no answer, since standard input could not be read",
            error,
        ),
    }
}

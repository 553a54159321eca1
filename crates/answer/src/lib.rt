// From the bytes of standard input to the bytes of standard output: what the input is, the run, and the answer's lines.
#![tactic(auto)]

mod input;
mod lines;
mod text;

ghost use Rattle.std.specs.Prelude.{◌≡◌, ◌+◌, ◌*◌, ◌≤◌, length, take, drop};
ghost use Rattle.rules.specs.paper.Limits.{most_nodes, most_registers, most_budget};
ghost use Rattle.io.specs.Counts.{IsPrefixLen};
ghost use Rattle.little_endian.specs.Numbers.{numbers};
ghost use Rattle.calls.specs.Runs.{run_call};
ghost use Rattle.answer.specs.Program.{answer_text, input_bytes, run_numbers, run_input, program};
ghost use Rattle.answer.specs.Writing.{refusal_answer};

use crate::input::{Counts, count_input};
use crate::lines::answer_text;
use crate::text::Text;
use automaton::meter::no_marks;
use calls::{MOST_BUDGET, MOST_IMAGE_WORDS, Ran, run};
use little_endian::{unpack_values, unpack_words};
use loader::WORK_WORDS;
use reader::{MOST_NODES, MOST_REGISTERS};
use rules::refusals::{Refusal, Refused};

// The largest input: an image of the most nodes, 8 bytes for n and r and 8 a node, and 8 bytes for each of the most registers.
pub const MOST_INPUT_BYTES: usize = 8 + 8 * MOST_NODES + 8 * MOST_REGISTERS;

// The room for an answer. The longest has 1,001 bytes: an outcome of 52, the steps of 28, the marks of 89, and 16 registers of 52.
pub const ANSWER_BYTES: usize = 1024;

// The image and the starting values of an input.
fn unpack_input(input: &[u8], image: &mut [u32], registers: &mut [u64])
    requires { 4 * length image.old + 8 * length registers.old ≤ length input.now }
    ensures image_after { image.new ≡ numbers 4 (length image.old) input.now }
    ensures registers_after { registers.new ≡ numbers 8 (length registers.old) (drop (4 * length image.old) input.now) }
{
    unpack_words(input, image);
    unpack_values(input, 4 * image.len(), registers);
}

// The run is made: the text of its answer.
fn answer_run(image: &[u32], registers: &mut [u64], work: &mut [u64]) -> Text
    requires { length registers.old ≤ most_registers }
    ensures { result ≡ answer_text (run_call image.now registers.old most_budget work.old) }
{
    let answer = run(image, registers, MOST_BUDGET, work);
    answer_text(answer, registers)
}

// The image and the starting values are taken from the input and run.
fn answer_input(input: &[u8], image: &mut [u32], registers: &mut [u64], work: &mut [u64]) -> Text
    requires in_bounds { 4 * length image.old + 8 * length registers.old ≤ length input.now }
    requires few_registers { length registers.old ≤ most_registers }
    ensures { result ≡ answer_text (run_numbers (length image.old) (length registers.old) input.now work.old) }
{
    unpack_input(input, image, registers);
    answer_run(image, registers, work)
}

// An input of the right byte count. The room for the image, the registers and the work words, 80 KB, is on the stack.
fn answer_counted(input: &[u8], counts: Counts) -> Text
    requires few_nodes { counts.nodes ≤ most_nodes }
    requires few_registers { counts.registers ≤ most_registers }
    requires input_len { length input.now ≡ input_bytes counts.nodes counts.registers }
    ensures { result ≡ answer_text (run_input counts.nodes counts.registers input.now) }
{
    let mut image = [0u32; MOST_IMAGE_WORDS];
    let mut registers = [0u64; MOST_REGISTERS];
    let mut work = [0u64; WORK_WORDS];
    let words = 2 + 2 * counts.nodes;
    answer_input(
        input,
        &mut image[..words],
        &mut registers[..counts.registers],
        &mut work,
    )
}

// The answer to an input that is refused before its image is read: no step is made, and there are no registers.
fn answer_refused(refusal: Refusal) -> Text
    ensures { result ≡ refusal_answer refusal }
{
    let refused = Refused { refusal, place: 0 };
    let answer = Ran {
        outcome: Err(refused),
        steps: 0,
        marks: no_marks(),
    };
    answer_text(answer, &[])
}

// The program: any input. The answer is the first bytes of the output, as many as are returned, and the bytes beyond stay as they were.
pub fn answer(input: &[u8], output: &mut [u8; ANSWER_BYTES]) -> usize
    ensures prefix_len { IsPrefixLen result output.new }
    ensures output_after { take result output.new ≡ program input.now }
    ensures kept { drop result output.new ≡ drop result output.old }
{
    let text = match count_input(input) {
        Ok(counts) => answer_counted(input, counts),
        Err(refusal) => answer_refused(refusal),
    };
    text.copied_to(output)
}

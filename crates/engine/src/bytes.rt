// The engine's calls on bytes, for a host that has its image and its registers as they came in: little-endian words of 4 bytes, and values in
// two's complement of 8 bytes, least byte first.
ghost use Rattle.std.specs.Prelude.{◌≡◌, ◌*◌, ◌≤◌, length, take};
ghost use Rattle.calls.specs.Sizes.{most_image_words};
ghost use Rattle.rules.specs.paper.Engine.{checker};
ghost use Rattle.rules.specs.Answers.{refused_at};
ghost use Rattle.engine.specs.Replies.{Replies, outcome_fields, RunCalled};
ghost use Rattle.little_endian.specs.Numbers.{numbers};
ghost use Rattle.calls.specs.Runs.{run_call};
ghost use Rattle.engine.specs.Bytes.{image_count, image_of_bytes, register_bytes, value_bytes, run_call_registers, run_call_bytes};

use crate::{CheckReply, RunReply, pi_check, pi_run};
use calls::{MOST_BUDGET, MOST_IMAGE_WORDS};
use little_endian::{pack_values, unpack_values, unpack_words};
use loader::WORK_WORDS;
use reader::MOST_REGISTERS;
use rules::refusals::{Refusal, Refused};

// A count of registers that no image has.
const TOO_MANY_REGISTERS: usize = MOST_REGISTERS + 1;

// How many words are taken from an image of this many bytes.
fn image_count(bytes: usize) -> usize
    ensures { result ≡ image_count bytes }
{
    if bytes < 8 {
        return 0;
    }
    if bytes % 4 != 0 {
        return 2;
    }
    if MOST_IMAGE_WORDS < bytes / 4 {
        return 2;
    }
    bytes / 4
}

// The words that are handed on stand first then; the answer is their count. One word stands for bytes that are left over.
fn unpack_image(image: &[u8], words: &mut [u32]) -> usize
    requires { most_image_words ≤ length words.old }
    ensures upper_bound { result ≤ length words.new }
    ensures words_after { take result words.new ≡ image_of_bytes image.now }
{
    let count = image_count(image.len());
    unpack_words(image, &mut words[..count]);
    if 4 * count == image.len() {
        return count;
    }
    words[count] = 0;
    count + 1
}

// `pi_check` on an image of bytes. Its words are laid out on the stack, which takes 16 KB.
#[unsafe(no_mangle)]
pub extern "C" fn pi_check_bytes(image: &[u8], work: &mut [u64]) -> CheckReply
    ensures replies { Replies (checker (image_of_bytes image.now) work.old).answer result }
    ensures work_after { work.new ≡ (checker (image_of_bytes image.now) work.old).work }
{
    let mut words = [0u32; MOST_IMAGE_WORDS];
    let count = unpack_image(image, &mut words);
    pi_check(&words[..count], work)
}

// `pi_run` on registers of bytes, as many as there is room for.
fn run_values(
    image: &[u32],
    registers: &mut [u8],
    values: &mut [u64],
    budget: u64,
    work: &mut [u64],
) -> RunReply
    requires { length registers.old ≡ 8 * length values.old }
    ensures { RunCalled value_bytes (run_call image.now (numbers 8 (length values.old) registers.old) budget work.old) result registers.new work.new }
{
    unpack_values(registers, 0, values);
    let reply = pi_run(image, values, budget, work);
    pack_values(values, registers);
    reply
}

// `pi_run` on registers of any bytes. Bytes that are no registers of any image stay as they are, and 17 values stand for them, which no image
// has either.
fn run_registers(image: &[u32], registers: &mut [u8], budget: u64, work: &mut [u64]) -> RunReply
    ensures { RunCalled (register_bytes registers.old) (run_call_registers image.now registers.old budget work.old) result registers.new work.new }
{
    let mut values = [0u64; TOO_MANY_REGISTERS];
    if registers.len() % 8 != 0 {
        return pi_run(image, &mut values, budget, work);
    }
    let count = registers.len() / 8;
    if MOST_REGISTERS < count {
        return pi_run(image, &mut values, budget, work);
    }
    run_values(image, registers, &mut values[..count], budget, work)
}

// The reply of a run that is refused before the image is looked at.
fn at_once(refusal: Refusal) -> RunReply
    ensures { result ≡ outcome_fields (refused_at refusal 0) }
{
    RunReply::from(Err(Refused { refusal, place: 0 }))
}

// `pi_run` on an image and registers of bytes. Its words are laid out on the stack, which takes 16 KB. Where the work words or the budget are
// refused nothing is touched.
#[unsafe(no_mangle)]
pub extern "C" fn pi_run_bytes(
    image: &[u8],
    registers: &mut [u8],
    budget: u64,
    work: &mut [u64],
) -> RunReply
    ensures { RunCalled (register_bytes registers.old) (run_call_bytes image.now registers.old budget work.old) result registers.new work.new }
{
    if work.len() < WORK_WORDS {
        return at_once(Refusal::Work);
    }
    if MOST_BUDGET < budget {
        return at_once(Refusal::Budget);
    }
    let mut words = [0u32; MOST_IMAGE_WORDS];
    let count = unpack_image(image, &mut words);
    run_registers(&words[..count], registers, budget, work)
}

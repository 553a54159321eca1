// What an input is: its counts of nodes and of registers, judged by its byte count.
ghost use Rattle.answer.specs.Writing.{CountAnswer};

use little_endian::word_at;
use reader::size_fits;
use rules::refusals::Refusal;

// The counts of nodes and of registers that an input's byte count fits.
#[derive(Clone, Copy, Debug, PartialEq, Eq)]
pub(crate) struct Counts {
    pub(crate) nodes: usize,
    pub(crate) registers: usize,
}

// Fewer than 8 bytes, 1; n or r, 2; a byte count other than theirs, 1.
pub(crate) fn count_input(input: &[u8]) -> Result<Counts, Refusal>
    ensures { CountAnswer input.now result }
{
    if input.len() < 8 {
        return Err(Refusal::Length);
    }
    let nodes = word_at(input, 0) as usize;
    let registers = word_at(input, 4) as usize;
    if !size_fits(nodes, registers) {
        return Err(Refusal::Size);
    }
    if input.len() != 8 + 8 * nodes + 8 * registers {
        return Err(Refusal::Length);
    }
    Ok(Counts { nodes, registers })
}

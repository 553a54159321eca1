// What every call of the engine begins and ends with: the image's tree is loaded into the work words, and they are cleared.
#![tactic(auto)]

ghost use Rattle.std.specs.Prelude.{◌≡◌, ◌≤◌, length};
ghost use Rattle.rules.specs.paper.Limits.{work_words};
ghost use Rattle.rules.specs.paper.Engine.{cleared, check_image};
ghost use Rattle.loader.specs.Answers.{LoadAnswer};

use checker::root;
use reader::{Shape, read_image};
use rules::kinds::Passed;
use rules::refusals::Refused;

// The work words that a call may write: a caller lends at least as many.
pub const WORK_WORDS: usize = 8192;

// An image that passes: what its root is, its count of registers and its count of nodes.
#[derive(Clone, Copy, Debug, PartialEq, Eq)]
pub struct Loaded {
    pub root: Passed,
    pub registers: usize,
    pub nodes: usize,
}

// The image is read and checked. Its tree stands in the work words then, and the rest of the first 8,192 of them is spoilt.
pub fn load(image: &[u32], work: &mut [u64]) -> Result<Loaded, Refused>
    requires { work_words ≤ length work.old }
    ensures { LoadAnswer (check_image image.now) result work.old work.new }
{
    let Shape { nodes, registers } = read_image(work, image)?;
    let root = root(work, registers, nodes)?;
    Ok(Loaded {
        root,
        registers,
        nodes,
    })
}

// The first 8,192 work words become 0.
pub fn clear(work: &mut [u64])
    requires { work_words ≤ length work.old }
    ensures { work.new ≡ cleared work.old }
{
    work[..WORK_WORDS].fill(0);
}

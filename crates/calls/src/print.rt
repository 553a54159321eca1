// The page of an image: its tree is loaded, and its lines are written.
ghost use Rattle.std.specs.Prelude.{◌≤◌, length};
ghost use Rattle.rules.specs.paper.Limits.{work_words};
ghost use Rattle.rules.specs.paper.Tree.{Root};
ghost use Rattle.rules.specs.paper.Engine.{check_image};
ghost use Rattle.reader.specs.Put.{KeptBeyond};
ghost use Rattle.reader.specs.Stored.{RootAt};
ghost use Rattle.page.specs.Call.{print_checked};
ghost use Rattle.calls.specs.Page.{TreePrinted, PrintedAs};

use crate::refused::nowhere;
use loader::load;
use page::{LINE_BYTES, put_page};
use rules::refusals::{Refusal, Refused};

// The page of the tree of so many nodes that stands in the work words; a page that is too short is left as it is.
fn print_tree(page: &mut [u8], work: &[u64], nodes: usize) -> Result<(), Refused>
    requires work_words_in_bounds { work_words ≤ length work.now }
    requires root_at { (t : Root) × RootAt work.now nodes t }
    ensures { TreePrinted work.now nodes result page.old page.new }
{
    if page.len() < LINE_BYTES * nodes {
        return Err(nowhere(Refusal::ShortPage));
    }
    put_page(page, work, nodes);
    Ok(())
}

// The image, then its page. The first 8,192 work words are spoilt.
pub(crate) fn print_image(image: &[u32], page: &mut [u8], work: &mut [u64]) -> Result<(), Refused>
    requires { work_words ≤ length work.old }
    ensures printed_as { PrintedAs (print_checked (check_image image.now) page.old) result page.new }
    ensures kept_beyond { KeptBeyond work_words work.old work.new }
{
    let loaded = load(image, work)?;
    print_tree(page, work, loaded.nodes)
}

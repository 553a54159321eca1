// The annex page as a C host calls it.
ghost use Rattle.std.specs.Prelude.{◌≡◌};
ghost use Rattle.page.specs.Call.{page_call};
ghost use Rattle.engine.specs.PageReplies.{page_fields, PageReplied};

use rules::refusals::Refused;

// What the annex page answers to a C host: refusal 0 where the page is written.
#[repr(C)]
#[derive(Clone, Copy, Debug, PartialEq, Eq)]
pub struct PageReply {
    pub refusal: u64,
    pub place: u64,
}

impl From<Result<(), Refused>> for PageReply {
    ghost from_gives = { λ answer reply. reply ≡ page_fields answer };

    fn from(answer: Result<(), Refused>) -> PageReply {
        match answer {
            Ok(()) => PageReply {
                refusal: 0,
                place: 0,
            },
            Err(refused) => PageReply {
                refusal: refused.refusal.number(),
                place: refused.place as u64,
            },
        }
    }
}

// `page` for a C host.
#[unsafe(no_mangle)]
pub extern "C" fn pi_page(image: &[u32], page: &mut [u8], work: &mut [u64]) -> PageReply
    ensures { PageReplied (page_call image.now page.old work.old) result page.new work.new }
{
    PageReply::from(calls::page(image, page, work))
}

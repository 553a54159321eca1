// The ranges of the registers as a C host calls them.
ghost use Rattle.std.specs.Prelude.{◌≡◌};
ghost use Rattle.calls.specs.Ranges.{ranges_call};
ghost use Rattle.engine.specs.RangesReplies.{ranges_fields, RangesReplied};

use rules::refusals::Refused;

// What the ranges answer to a C host: refusal 0 where the ends are given. The C interface has a type of its own for each call's answer.
#[repr(C)]
#[derive(Clone, Copy, Debug, PartialEq, Eq)]
pub struct RangesReply {
    pub refusal: u64,
    pub place: u64,
}

impl From<Result<(), Refused>> for RangesReply {
    ghost from_gives = { λ answer reply. reply ≡ ranges_fields answer };

    fn from(answer: Result<(), Refused>) -> RangesReply {
        match answer {
            Ok(()) => RangesReply {
                refusal: 0,
                place: 0,
            },
            Err(refused) => RangesReply {
                refusal: refused.refusal.number(),
                place: refused.place as u64,
            },
        }
    }
}

// `ranges` for a C host.
#[unsafe(no_mangle)]
pub extern "C" fn pi_ranges(
    image: &[u32],
    lowest: &mut [u64],
    highest: &mut [u64],
    work: &mut [u64],
) -> RangesReply
    ensures { RangesReplied (ranges_call image.now lowest.old highest.old work.old) result lowest.new highest.new work.new }
{
    RangesReply::from(calls::ranges(image, lowest, highest, work))
}

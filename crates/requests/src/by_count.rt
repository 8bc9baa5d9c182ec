// Requests by count: so many general frames, wherever they are. Document 01, "How a request is met".
ghost use Rattle.std.specs.Prelude.{◌≡◌};
ghost use Rattle.model.specs.Requests.{by_count, by_bytes, frames_of};
ghost use Rattle.lists.specs.Whole.{lists_in, answered_by, Ruled, Does};

use lists::{FourLists, HandedBack, Header, WhichList};
use memory_structs::{ADDRESS_LIMIT, FRAME_SIZE, FrameRange};
use model::Refusal;
use request_search::Chosen;

// "Count: early form takes the first slot that is large enough, sorted form the highest chunk; the grant is that chunk's beginning."
pub fn count_frames(h: Header, lists: &mut [u64], num_frames: u64) -> Result<HandedBack, Refusal>
    requires { Ruled h lists.old }
    ensures { Does (by_count num_frames (lists_in h lists.old)) lists.old (answered_by h result) lists.new }
{
    if num_frames == 0 {
        return Err(Refusal::NoFrames);
    }
    let known = FourLists {
        header: h,
        entries: lists,
    };
    let chunks = known.list(WhichList::GeneralFree);
    let Some(i) = chunks.find_large(num_frames) else {
        return Err(Refusal::NoLargeChunk);
    };
    let chosen = Chosen::one(i, chunks.entry(i));
    let start = chosen.range.start;
    let end = start + (num_frames - 1);
    let asked = FrameRange { start, end };
    request_taking::take_in(h, lists, WhichList::GeneralFree, chosen, asked)
}

// "Bytes: add to the bytes the remainder of the address by 4096 (0 where no address is named), divide by 4096, round up."
#[tactic(auto, using(lists::proofs::Whole::does_as, crate::proofs::Counted::bytes_on))]
pub fn count_bytes(h: Header, lists: &mut [u64], num_bytes: u64) -> Result<HandedBack, Refusal>
    requires { Ruled h lists.old }
    ensures { Does (by_bytes num_bytes (lists_in h lists.old)) lists.old (answered_by h result) lists.new }
{
    if ADDRESS_LIMIT < num_bytes {
        return Err(Refusal::OutOfBounds);
    }
    count_frames(h, lists, frames_of(num_bytes))
}

// "divide by 4096, round up"
#[tactic(auto, unfolding(model::specs::Requests::frames_of))]
pub fn frames_of(num_bytes: u64) -> u64
    ensures { result ≡ frames_of num_bytes }
{
    num_bytes.div_ceil(FRAME_SIZE)
}

// Requests on a header and entries that keep the rules: by count and by address, in frames and in bytes, from all frames or from general
// ones only. Document 01, "How a request is met" (000, `allocate_frames_deferred` and its callers).
#![tactic(auto)]

ghost use Rattle.model.specs.Calls.{answer};
ghost use Rattle.lists.specs.Whole.{lists_in, answered_by, Ruled, Does};
ghost use Rattle.requests.specs.Asked.{call_of};

mod by_address;
mod by_count;

pub use by_address::{bytes_at, frames_at, general_frames_at};
pub use by_count::{count_bytes, count_frames};
use lists::{HandedBack, Header};
use model::Refusal;

// What is asked for.
#[derive(Clone, Copy)]
pub enum Request {
    // So many general frames, wherever they are, and general frames for so many bytes.
    Frames { num_frames: u64 },
    Bytes { num_bytes: u64 },
    // These frames, or the frames of these bytes. Where no list knows them they become a reserved region, for good.
    FramesAt { frame: u64, num_frames: u64 },
    BytesAt { address: u64, num_bytes: u64 },
    // These frames, if they are general and free; a request that never grows.
    GeneralFramesAt { frame: u64, num_frames: u64 },
}

// As what is asked for is met.
#[tactic(auto, using(lists::proofs::Whole::does_as), unfolding(model::specs::Calls::answer))]
pub fn meet_request(h: Header, lists: &mut [u64], request: Request) -> Result<HandedBack, Refusal>
    requires { Ruled h lists.old }
    ensures { Does (answer (call_of request) (lists_in h lists.old)) lists.old (answered_by h result) lists.new }
{
    match request {
        Request::Frames { num_frames } => count_frames(h, lists, num_frames),
        Request::Bytes { num_bytes } => count_bytes(h, lists, num_bytes),
        Request::FramesAt { frame, num_frames } => frames_at(h, lists, frame, num_frames),
        Request::BytesAt { address, num_bytes } => bytes_at(h, lists, address, num_bytes),
        Request::GeneralFramesAt { frame, num_frames } => {
            general_frames_at(h, lists, frame, num_frames)
        }
    }
}

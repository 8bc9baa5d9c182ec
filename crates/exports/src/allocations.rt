// Requests: document 01, "How a request is met". A frame is named by its number, not by its address.
ghost use Rattle.model.specs.Calls.{Gives, count_call, count_bytes_call, address_call, address_bytes_call, general_call};
ghost use Rattle.rules.specs.Check.{answered_with};

use frame_allocator::Request;
use model::{Answer, FrameAllocator};

// So many general frames, wherever they are.
#[unsafe(no_mangle)]
pub extern "C" fn likhmout_allocate_frames(
    a: &mut FrameAllocator,
    words: &mut [u64],
    num_frames: u64,
) -> Answer
    ensures { Gives (count_call num_frames) a.old words.old (answered_with result a.new) words.new }
{
    frame_allocator::allocate(a, words, Request::Frames { num_frames })
}

// General frames for so many bytes.
#[unsafe(no_mangle)]
pub extern "C" fn likhmout_allocate_frames_by_bytes(
    a: &mut FrameAllocator,
    words: &mut [u64],
    num_bytes: u64,
) -> Answer
    ensures { Gives (count_bytes_call num_bytes) a.old words.old (answered_with result a.new) words.new }
{
    frame_allocator::allocate(a, words, Request::Bytes { num_bytes })
}

// The frames from this one on. Where no list knows them they become a reserved region, for good.
#[unsafe(no_mangle)]
pub extern "C" fn likhmout_allocate_frames_at(
    a: &mut FrameAllocator,
    words: &mut [u64],
    frame: u64,
    num_frames: u64,
) -> Answer
    ensures { Gives (address_call frame num_frames) a.old words.old (answered_with result a.new) words.new }
{
    frame_allocator::allocate(a, words, Request::FramesAt { frame, num_frames })
}

// The frames of so many bytes from this address on.
#[unsafe(no_mangle)]
pub extern "C" fn likhmout_allocate_frames_by_bytes_at(
    a: &mut FrameAllocator,
    words: &mut [u64],
    address: u64,
    num_bytes: u64,
) -> Answer
    ensures { Gives (address_bytes_call address num_bytes) a.old words.old (answered_with result a.new) words.new }
{
    frame_allocator::allocate(a, words, Request::BytesAt { address, num_bytes })
}

// The frames from this one on, if they are general and free.
#[unsafe(no_mangle)]
pub extern "C" fn likhmout_allocate_general_frames_at(
    a: &mut FrameAllocator,
    words: &mut [u64],
    frame: u64,
    num_frames: u64,
) -> Answer
    ensures { Gives (general_call frame num_frames) a.old words.old (answered_with result a.new) words.new }
{
    frame_allocator::allocate(a, words, Request::GeneralFramesAt { frame, num_frames })
}

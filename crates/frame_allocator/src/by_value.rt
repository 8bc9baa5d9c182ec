// The calls on a record by value: each takes the record, and hands it back with the answer in `Called`, or in `Ran` with how a run ended.
ghost use Rattle.model.specs.Calls.{boot_call, boot_bytes_call, sort_call, return_call, Gives};
ghost use Rattle.boot_areas.specs.Areas.{areas_in, byte_areas_in};
ghost use Rattle.requests.specs.Asked.{call_of};
ghost use Rattle.run.specs.Runs.{Runs};

use memory_structs::FrameRange;
use model::{Called, FrameAllocator};
use requests::Request;
use run::Ran;

// Boots from areas given as words, three to an area: first frame, last frame and kind.
pub fn init(mut a: FrameAllocator, areas: &[u64], words: &[u64]) -> Called
    ensures { Gives (boot_call (areas_in areas.now)) a words.now result words.now }
{
    let answer = boot::init(&mut a, areas, words);
    Called {
        answer,
        allocator: a,
    }
}

// Boots from areas given as words: address, size in bytes and kind.
pub fn init_from_bytes(mut a: FrameAllocator, areas: &[u64], words: &[u64]) -> Called
    ensures { Gives (boot_bytes_call (byte_areas_in areas.now)) a words.now result words.now }
{
    let answer = boot::init_from_bytes(&mut a, areas, words);
    Called {
        answer,
        allocator: a,
    }
}

// A request: document 01, "How a request is met".
pub fn allocate(mut a: FrameAllocator, words: &mut [u64], request: Request) -> Called
    ensures { Gives (call_of request) a words.old result words.new }
{
    let answer = calls::allocate(&mut a, words, request);
    Called {
        answer,
        allocator: a,
    }
}

// A return: the frames of the range are free again.
pub fn return_frames(mut a: FrameAllocator, words: &mut [u64], range: FrameRange) -> Called
    ensures { Gives (return_call range) a words.old result words.new }
{
    let answer = calls::return_frames(&mut a, words, range);
    Called {
        answer,
        allocator: a,
    }
}

// From early to sorted form.
pub fn convert_frame_allocator_to_heap_based(mut a: FrameAllocator, words: &mut [u64]) -> Called
    ensures { Gives sort_call a words.old result words.new }
{
    let answer = sort::convert_frame_allocator_to_heap_based(&mut a, words);
    Called {
        answer,
        allocator: a,
    }
}

// A list of calls of any length: docs/RUN.md.
pub fn run(
    mut a: FrameAllocator,
    words: &mut [u64],
    calls: &[u64],
    areas: &[u64],
    answers: &mut [u64],
    held: &mut [u64],
) -> Ran
    ensures { Runs areas.now calls.now a words.old answers.old held.old result words.new answers.new held.new }
{
    let ending = run::run(&mut a, words, calls, areas, answers, held);
    Ran {
        ending,
        allocator: a,
    }
}

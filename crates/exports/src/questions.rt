// Questions: document 01, "kind of a range", "free total", "held list". The record is lent to read; only the held list's buffer is
// written.
ghost use Rattle.memory_structs.specs.Range.{range};
ghost use Rattle.model.specs.Calls.{kind_call, total_call, Answers, ListsHeld};
ghost use Rattle.model.specs.Words.{kind_of_word};

use memory_structs::FrameRange;
use model::{Answer, FrameAllocator, Kind};

// count: 1 where any frame of the range is in a reserved region, else 0.
#[unsafe(no_mangle)]
pub extern "C" fn likhmout_kind_of_range(
    a: &FrameAllocator,
    words: &[u64],
    start: u64,
    end: u64,
) -> Answer
    ensures { Answers (kind_call (range start end)) a.now words.now result }
{
    frame_allocator::kind_of_range(a, words, FrameRange { start, end })
}

// count: how many frames are free. Kind 0 is general, any other number reserved.
#[unsafe(no_mangle)]
pub extern "C" fn likhmout_free_total(a: &FrameAllocator, words: &[u64], kind: u64) -> Answer
    ensures { Answers (total_call (kind_of_word kind)) a.now words.now result }
{
    frame_allocator::free_total(a, words, Kind::from(kind))
}

// count: how many runs are held. They are at the beginning of the buffer, as first and last frame, in ascending order of first frame. A
// buffer below 2,048 words is 3.
#[unsafe(no_mangle)]
pub extern "C" fn likhmout_held_list(
    a: &FrameAllocator,
    words: &[u64],
    buffer: &mut [u64],
) -> Answer
    ensures { ListsHeld a.now words.now buffer.old result buffer.new }
{
    frame_allocator::held_list(a, words, buffer)
}

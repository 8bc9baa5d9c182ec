// Returns: document 01, "Return". Frames are named by their numbers, not by their addresses; a range comes as two, as the C header has it.
ghost use Rattle.memory_structs.specs.Range.{range};
ghost use Rattle.model.specs.Calls.{Gives, return_call};
ghost use Rattle.rules.specs.Check.{answered_with};

use memory_structs::FrameRange;
use model::{Answer, FrameAllocator};

// The frames from `start` to `end` are free again.
#[unsafe(no_mangle)]
pub extern "C" fn likhmout_return_frames(
    a: &mut FrameAllocator,
    words: &mut [u64],
    start: u64,
    end: u64,
) -> Answer
    ensures { Gives (return_call (range start end)) a.old words.old (answered_with result a.new) words.new }
{
    frame_allocator::return_frames(a, words, FrameRange { start, end })
}

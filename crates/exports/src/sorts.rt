// Sort: document 01, "sort". From early form it writes the first 4,096 words; from then on the lists are there, and the words must be
// kept.
ghost use Rattle.model.specs.Calls.{Gives, sort_call};
ghost use Rattle.rules.specs.Check.{answered_with};

use model::{Answer, FrameAllocator};

// From early to sorted form; "A sort in sorted form changes nothing."
#[unsafe(no_mangle)]
pub extern "C" fn likhmout_convert_frame_allocator_to_heap_based(
    a: &mut FrameAllocator,
    words: &mut [u64],
) -> Answer
    ensures { Gives sort_call a.old words.old (answered_with result a.new) words.new }
{
    frame_allocator::convert_frame_allocator_to_heap_based(a, words)
}

// The public face: every call of document 01. A call that changes the record changes it in place; a question and the test read it.
#![tactic(auto)]

ghost use Rattle.model.specs.Calls.{boot_call, boot_bytes_call, Gives};
ghost use Rattle.rules.specs.Check.{answered_with};

pub mod by_value;

pub use calls::{allocate, return_frames};
pub use memory_structs::{FrameRange, Halves, OutOfBounds, SplitFrames};
pub use model::{Answer, Area, ByteArea, Called, FrameAllocator, Kind, Refusal, fresh};
pub use queries::{free_total, held_list, kind_of_range};
pub use requests::Request;
pub use rules::check;
pub use run::{Ending, Ran, RunEnd, run};
pub use sort::convert_frame_allocator_to_heap_based;

// Boots from areas given as first frame, last frame and kind. The workspace has 4,096 words in either form, else 3; it is read only in
// sorted form, and never written.
pub fn init(a: &mut FrameAllocator, areas: &[Area], words: &[u64]) -> Answer
    ensures { Gives (boot_call areas.now) a.old words.now (answered_with result a.new) words.now }
{
    boot::boot_map(a, &areas, words)
}

// Boots from areas given as address, size in bytes and kind. Two entries and no generic one: document 01 names both.
pub fn init_from_bytes(a: &mut FrameAllocator, areas: &[ByteArea], words: &[u64]) -> Answer
    ensures { Gives (boot_bytes_call areas.now) a.old words.now (answered_with result a.new) words.now }
{
    boot::boot_map(a, &areas, words)
}

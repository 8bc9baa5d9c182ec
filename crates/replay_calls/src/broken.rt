// A record that breaks a rule.
use model::FrameAllocator;

// The record with a slot that is used and has no frame: the last one of the general free list.
pub fn with_broken_slot(mut a: FrameAllocator) -> FrameAllocator {
    a.general_free.starts[31] = 1;
    a.general_free.ends[31] = 0;
    a.general_free.used[31] = 1;
    a
}

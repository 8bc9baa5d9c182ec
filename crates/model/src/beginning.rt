// A record to begin with: no list has an entry.
ghost use Rattle.std.specs.Prelude.{◌≡◌, replicate};
ghost use Rattle.model.specs.Lists.{unused};
ghost use Rattle.model.specs.Store.{early_of};
ghost use Rattle.model.specs.Calls.{fresh_record};

use crate::{EarlyList, FrameAllocator, SLOTS};
use memory_structs::FrameRange;

// 32 slots, none of them used.
#[tactic(auto, unfolding(crate::specs::Store::early_of))]
pub fn unused_slots() -> EarlyList
    ensures { result ≡ early_of (replicate 32 unused) }
{
    let empty = FrameRange::EMPTY;
    let starts = [empty.start; SLOTS];
    let ends = [empty.end; SLOTS];
    let used = [0; SLOTS];
    EarlyList { starts, ends, used }
}

// "A fresh record is in early form with every slot unused." A line for each list (`FrameAllocator`).
#[tactic(auto, unfolding(crate::specs::Calls::fresh_record, crate::specs::Calls::fresh, crate::specs::Store::record_of, crate::specs::Store::early_in, crate::specs::Store::length_in))]
pub fn fresh() -> FrameAllocator
    ensures { result ≡ fresh_record }
{
    let early = unused_slots();
    FrameAllocator {
        sorted: 0,
        general_free: early,
        reserved_free: early,
        general_regions: early,
        reserved_regions: early,
        general_free_len: 0,
        reserved_free_len: 0,
        general_regions_len: 0,
        reserved_regions_len: 0,
    }
}

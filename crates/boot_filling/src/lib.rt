// The last part of boot: the test that nothing meets (6), and the four lists in early form. Document 01, "Boot".
#![tactic(auto)]

ghost use Rattle.std.specs.Prelude.{◌≡◌, ◌≤◌, true, ◌++◌, length};
ghost use Rattle.std.specs.List.{list_any};
ghost use Rattle.memory_structs.specs.Range.{meets};
ghost use Rattle.model.specs.Lists.{disjoint};
ghost use Rattle.model.specs.Boot.{early};
ghost use Rattle.model.specs.Store.{early_of};
ghost use Rattle.boot_filling.specs.Filled.{filled_record};

use memory_structs::FrameRange;
use model::{EarlyList, FrameAllocator};

// Whether no piece meets another piece or a reserved area. Reserved areas that were joined do not meet one another.
#[tactic(auto, using(crate::proofs::Apart::meets_piece, crate::proofs::Apart::meets_reserved, crate::proofs::Apart::meets_none))]
pub fn are_disjoint(pieces: &[FrameRange], reserved: &[FrameRange]) -> bool
    requires { disjoint reserved.now ≡ true }
    ensures { result ≡ disjoint (pieces.now ++ reserved.now) }
{
    let mut left = pieces;
    while let Some((piece, later)) = left.split_first() {
        if meets_any(*piece, later) || meets_any(*piece, reserved) {
            return false;
        }
        left = later;
    }
    true
}

// Whether one of the ranges has a frame of this one.
fn meets_any(range: FrameRange, others: &[FrameRange]) -> bool
    ensures { result ≡ list_any (meets range) others.now }
{
    others.iter().any(|other| range.meets(*other))
}

// "then fill the lists, in early form": the pieces and the reserved areas are free, and they are the regions. They are written in place, so
// that the record is not copied. A line for each list (`FrameAllocator`).
#[tactic(auto, unfolding(model::specs::Store::record_of, model::specs::Store::early_in, model::specs::Store::length_in))]
pub fn fill_lists(a: &mut FrameAllocator, pieces: &[FrameRange], reserved: &[FrameRange])
    requires few_pieces { length pieces.now ≤ 32 }
    requires few_reserved { length reserved.now ≤ 32 }
    ensures { a.new ≡ filled_record pieces.now reserved.now }
{
    let general = early_list(pieces);
    let reserved = early_list(reserved);
    a.sorted = 0;
    a.general_free = general;
    a.reserved_free = reserved;
    a.general_regions = general;
    a.reserved_regions = reserved;
    a.general_free_len = 0;
    a.reserved_free_len = 0;
    a.general_regions_len = 0;
    a.reserved_regions_len = 0;
}

// The ranges in the first slots, in their order; the other slots are unused.
#[tactic(auto, using(crate::proofs::Slots::filled_start, crate::proofs::Slots::filled_next))]
fn early_list(ranges: &[FrameRange]) -> EarlyList
    requires { length ranges.now ≤ 32 }
    ensures { result ≡ early_of (early ranges.now) }
{
    let mut slots = model::unused_slots();
    for (i, range) in ranges.iter().enumerate() {
        // Written in place: handed over and back, the slots would be copied for each range.
        slots.starts[i] = range.start;
        slots.ends[i] = range.end;
        slots.used[i] = 1;
    }
    slots
}

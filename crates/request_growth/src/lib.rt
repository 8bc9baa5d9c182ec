// Growth: frames that no list knows become a reserved region and are granted. Document 01, "Address, whole" (000,
// `add_reserved_region_to_lists`).
#![tactic(auto)]

ghost use Rattle.std.specs.Prelude.{◌≡◌, ◌+◌, ◌-◌, ◌≤◌, ◌<◌, length};
ghost use Rattle.memory_structs.specs.Range.{range};
ghost use Rattle.model.specs.Lists as model;
ghost use Rattle.model.specs.Requests.{find, not_found, missing, grow, no_room_to_grow};
ghost use Rattle.lists.specs.declared.header.WhichList.TheVariants.{ReservedFree, ReservedRegions};
ghost use Rattle.lists.specs.Listed.{lists_of};
ghost use Rattle.lists.specs.Whole.{lists_in, slots_at, with_slots, answered_by, Ruled, Does};
ghost use Rattle.request_grants.specs.Grants.{Chooses, grant_of, entries_left};
ghost use Rattle.request_taking.specs.Takes.{AllStored};
ghost use Rattle.request_growth.specs.Grows.{growth_check};

use lists::{FourLists, HandedBack, Header, WhichList};
use memory_structs::FrameRange;
use model::{Refusal, SLOTS};
use request_search::Chosen;

// The whole request is new. It would be a reserved chunk and be granted at once, so that the free list stays as it is.
pub fn grow_whole(h: Header, lists: &mut [u64], asked: FrameRange) -> Result<HandedBack, Refusal>
    requires ruled { Ruled h lists.old }
    requires start_le_end { asked.start ≤ asked.end }
    requires lists_value { find h.sorted asked (lists_in h lists.old).reserved_free ≡ not_found }
    ensures { Does (grow (lists_in h lists.old) asked asked) lists.old (answered_by h result) lists.new }
{
    check_growth(
        FourLists {
            header: h,
            entries: lists,
        },
        asked,
    )?;
    let grown = add_reserved_region_to_lists(h, lists, asked);
    Ok(request_taking::granted(grown, asked))
}

// "On *missing* in the reserved list take only the missing tail": the frames from `from` on are new. The last chunk, which ends just
// below them, gives the others.
pub fn grow_tail(
    h: Header,
    lists: &mut [u64],
    from: u64,
    asked: FrameRange,
) -> Result<HandedBack, Refusal>
    requires ruled { Ruled h lists.old }
    requires start_le_end { asked.start ≤ asked.end }
    requires lists_value { find h.sorted asked (lists_in h lists.old).reserved_free ≡ missing from ((asked.end + 1) - from) }
    ensures { Does (grow (lists_in h lists.old) (range from asked.end) asked) lists.old (answered_by h result) lists.new }
{
    let tail = FrameRange {
        start: from,
        end: asked.end,
    };
    let known = FourLists {
        header: h,
        entries: lists,
    };
    check_growth(known, tail)?;
    // Only sorted form misses a tail, and there the last chunk is the highest.
    let chunks = known.list(WhichList::ReservedFree);
    let last = chunks.count() - 1;
    let chosen = Chosen::one(last, chunks.entry(last));
    let below = FrameRange {
        start: asked.start,
        end: chosen.range.end,
    };
    let cut = take_out(h, lists, chosen, below);
    let grown = add_reserved_region_to_lists(cut, lists, tail);
    Ok(request_taking::granted(grown, asked))
}

// Whether the part may become a region: "If that part meets a general region: 13. If it meets a reserved region: 16", and 18.
#[tactic(auto, using(crate::proofs::Growing::thirteen, crate::proofs::Growing::sixteen, crate::proofs::Growing::eighteen, crate::proofs::Growing::no_refusal), unfolding(lists::specs::Whole::slots_at))]
fn check_growth(lists: FourLists, part: FrameRange) -> Result<(), Refusal>
    requires { part.start ≤ part.end }
    ensures { result ≡ growth_check part (lists_of lists.entry) }
{
    if lists.list(WhichList::GeneralRegions).meets(part) {
        return Err(Refusal::NotFree);
    }
    if lists.list(WhichList::ReservedRegions).meets(part) {
        return Err(Refusal::MeetsReservedRegion);
    }
    if no_room_to_grow(lists) {
        return Err(Refusal::NoPlace);
    }
    Ok(())
}

// 18: the reserved regions are full, "early growth also when either reserved list has 32 already".
#[tactic(auto, using(crate::proofs::Growing::full_regions, crate::proofs::Growing::room_sorted, crate::proofs::Growing::room_early), unfolding(lists::specs::Whole::lists_in, lists::specs::Whole::slots_at))]
fn no_room_to_grow(lists: FourLists) -> bool
    ensures { result ≡ no_room_to_grow (lists_of lists.entry) }
{
    let regions = lists.list(WhichList::ReservedRegions);
    if regions.part.bound() <= regions.count() {
        return true;
    }
    if lists.header.sorted {
        return false;
    }
    SLOTS <= lists.list(WhichList::ReservedFree).count()
}

// The reserved chunk without the frames of `taken`; the other three lists stay as they are.
fn take_out(h: Header, lists: &mut [u64], chosen: Chosen, taken: FrameRange) -> Header
    requires ruled { Ruled h lists.old }
    requires chooses { Chooses h.sorted (slots_at ReservedFree (lists_in h lists.old)) chosen taken }
    requires lists_bound { entries_left h.sorted chosen taken (slots_at ReservedFree (lists_in h lists.old)) ≤ model.bound h.sorted }
    ensures { AllStored (with_slots ReservedFree (lists_in h lists.old) (grant_of h.sorted chosen taken (slots_at ReservedFree (lists_in h lists.old)))) lists.old result lists.new }
{
    let part = h.part(WhichList::ReservedFree);
    let words = h.words_of(WhichList::ReservedFree);
    let after = request_grants::allocate_from_chosen_chunk(part, &mut lists[words], chosen, taken);
    h.with_length(WhichList::ReservedFree, after)
}

// "Else it becomes a reserved region".
fn add_reserved_region_to_lists(h: Header, lists: &mut [u64], region: FrameRange) -> Header
    requires ruled { Ruled h lists.old }
    requires lists_len_bound { length (model.entries (lists_in h lists.old).reserved_regions) < model.bound h.sorted }
    ensures { AllStored (with_slots ReservedRegions (lists_in h lists.old) (model.insert h.sorted region (lists_in h lists.old).reserved_regions)) lists.old result lists.new }
{
    let part = h.part(WhichList::ReservedRegions);
    let words = h.words_of(WhichList::ReservedRegions);
    let after = part.insert(&mut lists[words], region);
    h.with_length(WhichList::ReservedRegions, after)
}

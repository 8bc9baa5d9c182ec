// Requests by address, from all frames or from general ones only. Document 01, "How a request is met".
ghost use Rattle.std.specs.Prelude.{◌≡◌, ◌+◌, ◌%◌, ◌≤◌};
ghost use Rattle.memory_structs.specs.Range.{address_limit, frame_size};
ghost use Rattle.model.specs.Requests.{frames_of, find, not_found, in_reserved, by_address, by_address_bytes, by_address_general};
ghost use Rattle.lists.specs.Whole.{lists_in, answered_by, Ruled, Does};
ghost use Rattle.requests.specs.Asks.{asked_range};

use crate::by_count::frames_of;
use lists::{FourLists, HandedBack, Header, WhichList};
use memory_structs::{ADDRESS_LIMIT, FRAME_SIZE, FrameRange};
use model::Refusal;

// "Address, whole: the reserved list first."
#[tactic(auto, using(crate::proofs::Asked::some_frames, crate::proofs::Searched::said_not), unfolding(lists::specs::Whole::lists_in, lists::specs::Whole::slots_at))]
pub fn frames_at(
    h: Header,
    lists: &mut [u64],
    frame: u64,
    num_frames: u64,
) -> Result<HandedBack, Refusal>
    requires { Ruled h lists.old }
    ensures { Does (by_address frame num_frames (lists_in h lists.old)) lists.old (answered_by h result) lists.new }
{
    let asked = asked_range(frame, num_frames)?;
    let known = FourLists {
        header: h,
        entries: lists,
    };
    match request_taking::find_in(known, WhichList::ReservedFree, asked) {
        Ok(chosen) => request_taking::take_in(h, lists, WhichList::ReservedFree, chosen, asked),
        Err(Refusal::NotFound) => in_general_list(h, lists, asked),
        Err(Refusal::Missing { frame, .. }) => request_growth::grow_tail(h, lists, frame, asked),
        Err(refusal) => Err(refusal),
    }
}

#[tactic(auto, using(lists::proofs::Whole::does_as, crate::proofs::Asked::address_bytes_on))]
pub fn bytes_at(
    h: Header,
    lists: &mut [u64],
    address: u64,
    num_bytes: u64,
) -> Result<HandedBack, Refusal>
    requires { Ruled h lists.old }
    ensures { Does (by_address_bytes address num_bytes (lists_in h lists.old)) lists.old (answered_by h result) lists.new }
{
    // The two limits alone, each by itself, as document 01 lists them: the end is tested after 1 (`asked_range`).
    if ADDRESS_LIMIT <= address {
        return Err(Refusal::OutOfBounds);
    }
    if ADDRESS_LIMIT < num_bytes {
        return Err(Refusal::OutOfBounds);
    }
    let num_frames = frames_from(address, num_bytes);
    frames_at(h, lists, address / FRAME_SIZE, num_frames)
}

// "Bytes: add to the bytes the remainder of the address by 4096 [..], divide by 4096, round up."
fn frames_from(address: u64, num_bytes: u64) -> u64
    requires { num_bytes ≤ address_limit }
    ensures { result ≡ frames_of (num_bytes + address % frame_size) }
{
    frames_of(num_bytes + address % FRAME_SIZE)
}

// A general-only request looks at the general list alone; 15 says what is missing.
#[tactic(auto, using(crate::proofs::Asked::some_frames))]
pub fn general_frames_at(
    h: Header,
    lists: &mut [u64],
    frame: u64,
    num_frames: u64,
) -> Result<HandedBack, Refusal>
    requires { Ruled h lists.old }
    ensures { Does (by_address_general frame num_frames (lists_in h lists.old)) lists.old (answered_by h result) lists.new }
{
    let asked = asked_range(frame, num_frames)?;
    let known = FourLists {
        header: h,
        entries: lists,
    };
    let chosen = request_taking::find_in(known, WhichList::GeneralFree, asked)?;
    request_taking::take_in(h, lists, WhichList::GeneralFree, chosen, asked)
}

// "On *not found*, the general list; there *missing* gives 12. On *not found* twice take the whole request".
#[tactic(auto, using(lists::proofs::Whole::does_as, crate::proofs::Searched::said_not, crate::proofs::Searched::general_not), unfolding(lists::specs::Whole::lists_in, lists::specs::Whole::slots_at))]
fn in_general_list(h: Header, lists: &mut [u64], asked: FrameRange) -> Result<HandedBack, Refusal>
    requires ruled { Ruled h lists.old }
    requires start_le_end { asked.start ≤ asked.end }
    requires lists_value { find h.sorted asked (lists_in h lists.old).reserved_free ≡ not_found }
    ensures { Does (in_reserved (lists_in h lists.old) asked not_found) lists.old (answered_by h result) lists.new }
{
    let known = FourLists {
        header: h,
        entries: lists,
    };
    match request_taking::find_in(known, WhichList::GeneralFree, asked) {
        Ok(chosen) => request_taking::take_in(h, lists, WhichList::GeneralFree, chosen, asked),
        Err(Refusal::NotFound) => request_growth::grow_whole(h, lists, asked),
        Err(Refusal::Missing { .. }) => Err(Refusal::NotFound),
        Err(refusal) => Err(refusal),
    }
}

// The frames that are asked for: 1 for none of them, 2 for one above the top.
#[tactic(auto, using(crate::proofs::Asked::one, crate::proofs::Asked::two, crate::proofs::Asked::in_bounds))]
fn asked_range(frame: u64, num_frames: u64) -> Result<FrameRange, Refusal>
    ensures { result ≡ asked_range frame num_frames }
{
    if num_frames == 0 {
        return Err(Refusal::NoFrames);
    }
    if FrameRange::TOP < frame {
        return Err(Refusal::OutOfBounds);
    }
    // The sum of frame and count may not fit.
    if FrameRange::TOP - frame < num_frames - 1 {
        return Err(Refusal::OutOfBounds);
    }
    let end = frame + (num_frames - 1);
    Ok(FrameRange { start: frame, end })
}

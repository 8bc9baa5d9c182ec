// Returns: frames that were granted are free again. Document 01, "Return" (000, `Drop for Frames`; "`Drop`: an explicit return").
#![tactic(auto)]

ghost use Rattle.std.specs.Prelude.{◌≡◌, ◌≤◌};
ghost use Rattle.memory_structs.specs.Range.{top};
ghost use Rattle.model.specs.Returns.{give_back};
ghost use Rattle.lists.specs.Listed.{lists_of};
ghost use Rattle.lists.specs.Whole.{lists_in, answered_by, Ruled, Does};
ghost use Rattle.returns.specs.Given.{any_free, given_to};

use lists::{FourLists, HandedBack, Header, WhichList};
use memory_structs::FrameRange;
use model::{Answer, Refusal};

// "returns: empty, 2, 19, 18"; "an empty range is accepted and changes nothing".
#[tactic(auto, using(lists::proofs::Whole::does_as, crate::proofs::Giving::in_order, crate::proofs::Giving::below_top, crate::proofs::Giving::in_general_holds, crate::proofs::Giving::in_reserved_holds), unfolding(lists::specs::Whole::slots_at))]
pub fn give_back(h: Header, lists: &mut [u64], range: FrameRange) -> Result<HandedBack, Refusal>
    requires { Ruled h lists.old }
    ensures { Does (give_back range (lists_in h lists.old)) lists.old (answered_by h result) lists.new }
{
    if range.is_empty() {
        return Ok(HandedBack {
            answer: Answer::counted(0),
            header: h,
        });
    }
    if range.is_above_top() {
        return Err(Refusal::OutOfBounds);
    }
    let known = FourLists {
        header: h,
        entries: lists,
    };
    if is_any_free(known, range) {
        return Err(Refusal::NotHeld);
    }
    if known.list(WhichList::GeneralRegions).covers(range) {
        return give_to(h, lists, WhichList::GeneralFree, range);
    }
    if known.list(WhichList::ReservedRegions).covers(range) {
        return give_to(h, lists, WhichList::ReservedFree, range);
    }
    Err(Refusal::NotHeld)
}

// 19: "a returned frame is free", of either kind.
#[tactic(auto, using(crate::proofs::Giving::general_free, crate::proofs::Giving::reserved_free), unfolding(lists::specs::Whole::slots_at))]
fn is_any_free(lists: FourLists, range: FrameRange) -> bool
    requires { range.start ≤ range.end }
    ensures { result ≡ any_free range (lists_of lists.entry) }
{
    lists.list(WhichList::GeneralFree).meets(range)
        || lists.list(WhichList::ReservedFree).meets(range)
}

// The frames go to this free list, or 18 where it has no place for them.
#[tactic(auto, using(lists::proofs::Whole::lent_fits, lists::proofs::Whole::lent_tidy, crate::proofs::Giving::no_place_holds, crate::proofs::Giving::a_place))]
fn give_to(
    h: Header,
    lists: &mut [u64],
    which: WhichList,
    range: FrameRange,
) -> Result<HandedBack, Refusal>
    requires ruled { Ruled h lists.old }
    requires end_le_top { range.end ≤ top }
    ensures { Does (given_to which range (lists_in h lists.old)) lists.old (answered_by h result) lists.new }
{
    let part = h.part(which);
    let words = h.words_of(which);
    let Some(len) = return_joining::give_back(part, &mut lists[words], range) else {
        return Err(Refusal::NoPlace);
    };
    Ok(HandedBack {
        answer: Answer::counted(0),
        header: h.with_length(which, len),
    })
}

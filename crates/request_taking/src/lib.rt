// One of the four lists of a header and entries that keep the rules: searched, and chunks taken out of it. Document 01, "Search and
// grant".
#![tactic(auto)]

ghost use Rattle.std.specs.Prelude.{◌≡◌, ◌≤◌};
ghost use Rattle.model.specs.Requests.{find};
ghost use Rattle.lists.specs.Listed.{lists_of};
ghost use Rattle.lists.specs.Whole.{lists_in, slots_at, answered_by, Ruled, Does};
ghost use Rattle.request_search.specs.Searches.{answer_of};
ghost use Rattle.request_grants.specs.Grants.{Chooses};
ghost use Rattle.request_taking.specs.Takes.{taken, granted_with};

use lists::{FourLists, HandedBack, Header, WhichList};
use memory_structs::FrameRange;
use model::{Answer, Refusal};
use request_search::Chosen;

// The chunks of the list that hold every frame that is asked for, or why there are none.
pub fn find_in(lists: FourLists, which: WhichList, asked: FrameRange) -> Result<Chosen, Refusal>
    requires { asked.start ≤ asked.end }
    ensures { result ≡ answer_of (find lists.entry.header.sorted asked (slots_at which (lists_of lists.entry))) }
{
    request_search::find_specific_chunk(lists.list(which), asked)
}

// The frames of `asked` are granted from the chunks that hold them; 18 where what is left over has no place. The part, the
// call on it and its new length stand so in four functions: one that took the call as a closure would state the words before and after by the
// closure's clause, which says no more than these lines.
#[tactic(auto, using(lists::proofs::Whole::lent_fits, lists::proofs::Whole::lent_tidy, crate::proofs::Taken::lent_chooses, crate::proofs::Taken::does_not_take, crate::proofs::Taken::does_take))]
pub fn take_in(
    h: Header,
    lists: &mut [u64],
    which: WhichList,
    chosen: Chosen,
    asked: FrameRange,
) -> Result<HandedBack, Refusal>
    requires ruled { Ruled h lists.old }
    requires chooses { Chooses h.sorted (slots_at which (lists_in h lists.old)) chosen asked }
    ensures { Does (taken which chosen asked (lists_in h lists.old)) lists.old (answered_by h result) lists.new }
{
    let part = h.part(which);
    let words = h.words_of(which);
    let Some(len) = request_grants::take(part, &mut lists[words], chosen, asked) else {
        return Err(Refusal::NoPlace);
    };
    Ok(granted(h.with_length(which, len), asked))
}

// "An accepted call returns number 0, the granted range [..], frame 0", and count 0.
pub fn granted(h: Header, asked: FrameRange) -> HandedBack
    ensures { result ≡ granted_with asked h }
{
    HandedBack {
        answer: Answer::granted(asked),
        header: h,
    }
}

// How a record stores the slots of a list: document 01, "List rules" (refusal 11). What the slots are is tested on the pairs of words that they
// are packed into (`rules`).
#![tactic(auto)]

ghost use Rattle.std.specs.Prelude.{◌≡◌, ◌&&◌, eqb};
ghost use Rattle.model.specs.Store.{Arrays, emptied, all_zero};
ghost use Rattle.rules_early.specs.Slot.{plain_slot, plain, all_empty};

use memory_structs::FrameRange;
use model::{EarlyList, SLOTS};

// In early form: an unused slot holds [1,0], and a used one a range that is not empty. Such slots are told by their pairs of words alone. The
// lengths of the arrays are said too: a reference to a list tells none.
pub fn is_plain(list: &EarlyList) -> bool
    ensures plain { result ≡ plain list.now }
    ensures arrays { Arrays list.now }
{
    for i in 0..SLOTS {
        if !is_plain_slot(list.used[i], list.starts[i], list.ends[i]) {
            return false;
        }
    }
    true
}

// In sorted form: every slot holds [1,0], and none is used.
#[tactic(auto, using(crate::proofs::Stored::idle_is))]
pub fn is_idle(list: &EarlyList) -> bool
    ensures idle { result ≡ (emptied list.now.starts list.now.ends list.now.used && all_zero list.now.used) }
    ensures arrays { Arrays list.now }
{
    are_empty(list) && are_unused(list)
}

// Whether every slot holds [1,0]. No early exit here and below: the loops then run on vectors.
fn are_empty(list: &EarlyList) -> bool
    ensures empty { result ≡ all_empty list.now.starts list.now.ends }
    ensures arrays { Arrays list.now }
{
    let mut seen = 0;
    for i in 0..SLOTS {
        seen |= (list.starts[i] ^ 1) | list.ends[i];
    }
    seen == 0
}

// Whether no slot is used.
fn are_unused(list: &EarlyList) -> bool
    ensures { result ≡ all_zero list.now.used }
{
    let mut seen = 0;
    for used in &list.used {
        seen |= used;
    }
    seen == 0
}

// Its three numbers, and no range: the record keeps them in three arrays. A flag that is neither 0 nor 1 breaks the rules.
#[tactic(auto, unfolding(crate::specs::Slot::plain_slot))]
fn is_plain_slot(used: u8, start: u64, end: u64) -> bool
    ensures { result ≡ plain_slot used start end }
{
    match used {
        0 => is_empty_constant(start, end),
        1 => start <= end,
        _ => false,
    }
}

// Whether the two numbers are those of the empty range [1,0].
fn is_empty_constant(start: u64, end: u64) -> bool
    ensures { result ≡ (eqb start 1 && eqb end 0) }
{
    FrameRange { start, end } == FrameRange::EMPTY
}

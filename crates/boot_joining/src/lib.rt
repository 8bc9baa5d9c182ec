// Reserved areas that overlap become one: document 01, "Boot" (000, `init`).
#![tactic(auto)]

ghost use Rattle.std.specs.Prelude.{◌≡◌, ◌≤◌, length};
ghost use Rattle.model.specs.Boot as model;

use boot_carving::RangeList;
use memory_structs::FrameRange;

// "join reserved areas that overlap, pass by pass, into the earlier one (touching ones stay two)"
#[tactic(auto, using(crate::proofs::Joining::join_ends, crate::proofs::Joining::join_again, crate::proofs::Joining::join_smaller))]
pub fn join(mut areas: RangeList) -> RangeList
    ensures { result.items ≡ model.join areas.items }
{
    loop {
        let len = areas.len();
        areas = pass(areas);
        if areas.len() == len {
            return areas;
        }
    }
}

// Each area in turn takes in the later ones that it meets.
#[tactic(auto, using(crate::proofs::Joining::passing_end))]
fn pass(areas: RangeList) -> RangeList
    requires few { length areas.items ≤ 32 }
    ensures { result.items ≡ model.pass (length areas.items) areas.items }
{
    let mut joined = RangeList::new();
    let mut left = areas;
    while let Some((first, others)) = left.as_slice().split_first() {
        let (area, rest) = absorb(*first, others);
        joined.push(area);
        left = rest;
    }
    joined
}

// The first area takes in each later one that it meets, as it has grown by then: it, grown, and those of the others that are left.
#[tactic(auto, using(crate::proofs::Joining::absorb_start, crate::proofs::Joining::absorb_met, crate::proofs::Joining::absorb_not, crate::proofs::Joining::absorb_area, crate::proofs::Joining::absorb_rest))]
fn absorb(first: FrameRange, others: &[FrameRange]) -> (FrameRange, RangeList)
    requires few { length others.now ≤ 32 }
    ensures area { result.0 ≡ model.grown first others.now }
    ensures rest { result.1.items ≡ model.left first others.now }
{
    let mut area = first;
    let mut rest = RangeList::new();
    for &other in others {
        if area.meets(other) {
            area = FrameRange::new(area.start.min(other.start), area.end.max(other.end));
        } else {
            rest.push(other);
        }
    }
    (area, rest)
}

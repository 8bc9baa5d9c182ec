// A grant from one list, in either form: the frames asked for leave the chunks that hold them, and what is left over goes back. The list
// is pairs of words in its own part of a lent slice. Document 01, "Search and grant" (000, `allocate_from_chosen_chunk`).
#![tactic(auto)]

ghost use Rattle.std.specs.Prelude.{◌≡◌, true, false, [], ◌∷◌, ◌+◌, ◌-◌, ◌≤◌, ◌<◌};
ghost use Rattle.memory_structs.specs.Range.{range};
ghost use Rattle.model.specs.Lists.{bound, used};
ghost use Rattle.model.specs.Rules.{tidy};
ghost use Rattle.model.specs.Store.{table_slots, slot_words};
ghost use Rattle.tables.specs.Words.{IsTable};
ghost use Rattle.pairs.specs.Pairs.{pair_slots, IsPairs};
ghost use Rattle.lists.specs.Part.{part_slots, IsTidy, Stored};
ghost use Rattle.lists.specs.Listed.{list_slots};
ghost use Rattle.request_grants.specs.Grants.{Chooses, grant_of, entries_left, cut_in_two, overfull, TakesOut, put_left, instead, TableOf};

use lists::{List, Part};
use memory_structs::FrameRange;
use request_search::Chosen;

// The frames of `asked` leave the chunks that hold them; the answer is the list's length after that. What is left over has no place, and
// the list stays as it is, where "after the call a list would hold more than 32 (early) or 512 (sorted) entries".
#[tactic(auto, using(crate::proofs::Placed::without_place, crate::proofs::Placed::with_place, crate::proofs::Placed::few_left))]
pub fn take(part: Part, t: &mut [u64], chosen: Chosen, asked: FrameRange) -> Option<usize>
    requires tidy { IsTidy part t.old }
    requires chooses { Chooses part.sorted (part_slots part t.old) chosen asked }
    ensures { TakesOut part.sorted chosen asked (part_slots part t.old) t.old result t.new }
{
    if is_overfull(List { part, words: t }, chosen, asked) {
        return None;
    }
    Some(allocate_from_chosen_chunk(part, t, chosen, asked))
}

// Whether the list would hold more entries than it may. Only a chunk that is cut in two adds an entry, so that no other grant counts them.
#[tactic(auto, using(crate::proofs::Entries::cut_fills, crate::proofs::Entries::cut_nowhere))]
fn is_overfull(list: List, chosen: Chosen, asked: FrameRange) -> bool
    requires { Chooses list.part.sorted (list_slots list) chosen asked }
    ensures { result ≡ overfull list.entry.part.sorted chosen asked (list_slots list.entry) }
{
    is_cut_in_two(chosen, asked) && list.part.bound() <= list.count()
}

// Whether one chunk has frames left over on both sides.
fn is_cut_in_two(chosen: Chosen, asked: FrameRange) -> bool
    ensures { result ≡ cut_in_two chosen asked }
{
    chosen.many == 1 && chosen.range.start != asked.start && chosen.range.end != asked.end
}

// "Leftovers go back in the same call, before first, then after, unmerged." The answer is the length after that.
pub fn allocate_from_chosen_chunk(
    part: Part,
    t: &mut [u64],
    chosen: Chosen,
    asked: FrameRange,
) -> usize
    requires tidy { IsTidy part t.old }
    requires chooses { Chooses part.sorted (part_slots part t.old) chosen asked }
    requires t_bound { entries_left part.sorted chosen asked (part_slots part t.old) ≤ bound part.sorted }
    ensures { Stored part.sorted (grant_of part.sorted chosen asked (part_slots part t.old)) result t.new }
{
    if part.sorted {
        return allocate_from_table(t, part.len, chosen, asked);
    }
    allocate_from_slots(t, chosen, asked);
    part.len
}

// The chosen slot is emptied; each leftover takes the first slot that is not used.
fn allocate_from_slots(t: &mut [u64], chosen: Chosen, asked: FrameRange)
    requires pairs { IsPairs t.old }
    requires t_value { tidy false (pair_slots 32 t.old) ≡ true }
    requires chooses { Chooses false (pair_slots 32 t.old) chosen asked }
    ensures { t.new ≡ slot_words (grant_of false chosen asked (pair_slots 32 t.old)) }
{
    pairs::empty_slot(t, chosen.first);
    put_left(t, chosen.range.below(asked.start));
    put_left(t, chosen.range.above(asked.end));
}

// What is left over on one side goes in, where it has a frame.
#[tactic(auto, unfolding(crate::specs::Grants::put_left, model::specs::Lists::insert))]
fn put_left(t: &mut [u64], left: FrameRange)
    requires { IsPairs t.old }
    ensures { t.new ≡ slot_words (put_left left (pair_slots 32 t.old)) }
{
    if !left.is_empty() {
        pairs::insert(t, left);
    }
}

// The leftovers take the place of the chosen pairs, and the pairs above move once at most. The answer is the length after that. Words and length
// are two parameters here and below, as in `tables`.
#[tactic(auto, using(model::proofs::Stored::table_length, tables::proofs::Spaced::tidy_spaced, crate::proofs::Entries::room_for_two, crate::proofs::Grant::grant_none, crate::proofs::Grant::grant_before, crate::proofs::Grant::grant_after, crate::proofs::Grant::grant_both, crate::proofs::Rewritten::all_removed, crate::proofs::Rewritten::left_instead), unfolding(memory_structs::specs::Range::frames_below, memory_structs::specs::Range::frames_above))]
pub fn allocate_from_table(t: &mut [u64], len: usize, chosen: Chosen, asked: FrameRange) -> usize
    requires table { IsTable len t.old }
    requires t_value { tidy true (table_slots len t.old) ≡ true }
    requires chooses { Chooses true (table_slots len t.old) chosen asked }
    requires t_bound { entries_left true chosen asked (table_slots len t.old) ≤ 512 }
    ensures { TableOf (grant_of true chosen asked (table_slots len t.old)) result t.new }
{
    if chosen.range.start == asked.start {
        if chosen.range.end == asked.end {
            tables::remove_at(t, len, chosen.first, chosen.many);
            return len - chosen.many;
        }
        let left = chosen.range.above(asked.end);
        return leave_one(t, len, chosen.first, chosen.many, left);
    }
    if chosen.range.end == asked.end {
        let left = chosen.range.below(asked.start);
        return leave_one(t, len, chosen.first, chosen.many, left);
    }
    leave_two(t, len, chosen, asked)
}

// Of the pairs from `first` on, `many` of them, one is left: the first is rewritten where it stands, the others are taken out.
fn leave_one(t: &mut [u64], len: usize, first: usize, many: usize, left: FrameRange) -> usize
    requires table { IsTable len t.old }
    requires many_nonzero { (0 < many) × (first + many ≤ len) }
    ensures { TableOf (instead first many (used left ∷ []) (table_slots len t.old)) result t.new }
{
    tables::replace_at(t, len, first, left);
    if many == 1 {
        return len;
    }
    tables::remove_at(t, len, first + 1, many - 1);
    len - (many - 1)
}

// The part before and the part after are left. Only a single pair, which becomes two, makes the pairs above move up.
fn leave_two(t: &mut [u64], len: usize, chosen: Chosen, asked: FrameRange) -> usize
    requires table { IsTable len t.old }
    requires t_value { tidy true (table_slots len t.old) ≡ true }
    requires chooses { Chooses true (table_slots len t.old) chosen asked }
    requires start_lt_start { (chosen.range.start < asked.start) × (asked.end < chosen.range.end) × (len + 2 ≤ chosen.many + 512) }
    ensures { TableOf (instead chosen.first chosen.many (used (range chosen.range.start (asked.start - 1)) ∷ used (range (asked.end + 1) chosen.range.end) ∷ []) (table_slots len t.old)) result t.new }
{
    let before = chosen.range.below(asked.start);
    let after = chosen.range.above(asked.end);
    tables::replace_at(t, len, chosen.first, before);
    if chosen.many == 1 {
        tables::insert(t, len, after);
        return len + 1;
    }
    leave_one(t, len, chosen.first + 1, chosen.many - 1, after)
}

// A return to one list: the range is joined to a chunk that it touches, or becomes a chunk of its own. Document 01, "Return" (000,
// `Drop for Frames`).
#![tactic(auto)]

ghost use Rattle.std.specs.Prelude.{◌≡◌, true, false, ◌≤◌};
ghost use Rattle.memory_structs.specs.Range.{top};
ghost use Rattle.model.specs.Lists as model;
ghost use Rattle.model.specs.Returns.{given};
ghost use Rattle.model.specs.Rules.{tidy};
ghost use Rattle.model.specs.Store.{table_slots};
ghost use Rattle.tables.specs.Words.{IsTable};
ghost use Rattle.pairs.specs.Pairs.{pair_slots, IsPairs};
ghost use Rattle.lists.specs.Part.{part_slots, IsTidy};
ghost use Rattle.return_joining.specs.Rejoins.{GoesBack};

use lists::Part;
use memory_structs::FrameRange;
use model::ENTRIES;
use tables::Table;

// "Early: first empty slot. Sorted: joined to a touching chunk above; only where there is none, to one touching below; never to both."
// The answer is the list's length after that; a list that has no place for the range stays as it is.
pub fn give_back(part: Part, t: &mut [u64], range: FrameRange) -> Option<usize>
    requires tidy { IsTidy part t.old }
    requires end_le_top { range.end ≤ top }
    ensures { GoesBack part.sorted range (part_slots part t.old) t.old result t.new }
{
    if part.sorted {
        return rejoin_table(t, part.len, range);
    }
    add_slot(t, range)
}

// 18 where all 32 slots are used.
fn add_slot(t: &mut [u64], range: FrameRange) -> Option<usize>
    requires { IsPairs t.old }
    ensures { GoesBack false range (pair_slots 32 t.old) t.old result t.new }
{
    if !pairs::insert(t, range) {
        return None;
    }
    Some(0)
}

// The chunk that is joined is rewritten where it stands, so that no word moves. Words and length are two parameters, as in `tables`.
#[tactic(auto, using(crate::proofs::Rejoined::found_pair, crate::proofs::Rejoined::found_neither))]
fn rejoin_table(t: &mut [u64], len: usize, range: FrameRange) -> Option<usize>
    requires table { IsTable len t.old }
    requires t_value { tidy true (table_slots len t.old) ≡ true }
    requires end_le_top { range.end ≤ top }
    ensures { GoesBack true range (table_slots len t.old) t.old result t.new }
{
    let table = Table { words: t, len };
    if let Some(i) = table.starting_at(range.end + 1) {
        let joined = FrameRange {
            start: range.start,
            end: table.entry(i).end,
        };
        tables::replace_at(t, len, i, joined);
        return Some(len);
    }
    if let Some(i) = table.ending_below(range.start) {
        let joined = FrameRange {
            start: table.entry(i).start,
            end: range.end,
        };
        tables::replace_at(t, len, i, joined);
        return Some(len);
    }
    add_pair(t, len, range)
}

// A range that no pair is joined to.
fn add_pair(t: &mut [u64], len: usize, range: FrameRange) -> Option<usize>
    requires table { IsTable len t.old }
    requires t_value { tidy true (table_slots len t.old) ≡ true }
    requires t_value_2 { given true range (table_slots len t.old) ≡ model.insert true range (table_slots len t.old) }
    ensures { GoesBack true range (table_slots len t.old) t.old result t.new }
{
    if ENTRIES <= len {
        return None;
    }
    tables::insert(t, len, range);
    Some(len + 1)
}

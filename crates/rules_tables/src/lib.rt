// The list rules for sorted tables: one forward pass over a table, and one merge walk over two. Document 01, "List rules". The walks read words
// and not `entry`: most turns need one of the two words of a pair.
#![tactic(auto)]

ghost use Rattle.std.specs.Prelude.{◌≡◌, true, ◌≤◌, length};
ghost use Rattle.memory_structs.specs.Range as range;
ghost use Rattle.model.specs.Lists.{entries, any_of, all_of, in_union};
ghost use Rattle.model.specs.Rules.{tidy};
ghost use Rattle.tables.specs.Slots.{slots};
ghost use Rattle.rules_tables.specs.Table.{keeps_table};

use memory_structs::FrameRange;
use model::ENTRIES;
use tables::Table;

// Whether the part is a table of so many pairs that keeps the rules for one list: "at most 512 entries, unused words 0". A length of any size
// comes, so it is no `Table` yet.
#[tactic(auto, unfolding(crate::specs::Table::keeps_table))]
pub fn is_table(t: &[u64], len: usize) -> bool
    requires { length t.now ≡ 1024 }
    ensures { result ≡ keeps_table len t.now }
{
    if ENTRIES < len {
        return false;
    }
    let table = Table { words: t, len };
    table.zero_tail() && is_tidy(table)
}

// Whether the pairs are ranges with frames, each above the one before it, up to the top.
pub fn is_tidy(table: Table) -> bool
    requires { table.len ≤ 512 }
    ensures { result ≡ tidy true (slots table.entry) }
{
    if table.len == 0 {
        return true;
    }
    if table.words[1] < table.words[0] {
        return false;
    }
    for i in 1..table.len {
        if table.words[2 * i] <= table.words[2 * i - 1] {
            return false;
        }
        if table.words[2 * i + 1] < table.words[2 * i] {
            return false;
        }
    }
    // The ends ascend: where the last is at or below the top, all are.
    table.words[2 * table.len - 1] <= FrameRange::TOP
}

// Whether every chunk, a pair of its table, lies in the union of the regions, some of which may touch.
pub fn covers_all(regions: Table, chunks: Table) -> bool
    requires regions_value { tidy true (slots regions) ≡ true }
    requires chunks_value { tidy true (slots chunks) ≡ true }
    ensures { result ≡ all_of (in_union (entries (slots regions.entry))) (entries (slots chunks.entry)) }
{
    let mut i = 0;
    let mut j = 0;
    // Every frame of chunk i below `from` is in a region.
    let mut from: u64 = 0;
    // A merge walk: each turn moves one of two indices, so neither is a `for`'s.
    while i < chunks.len {
        if regions.len <= j {
            return false;
        }
        let first = from.max(chunks.words[2 * i]);
        if regions.words[2 * j + 1] < first {
            j += 1;
        } else {
            if first < regions.words[2 * j] {
                return false;
            }
            if chunks.words[2 * i + 1] <= regions.words[2 * j + 1] {
                i += 1;
            } else {
                from = regions.words[2 * j + 1] + 1;
                j += 1;
            }
        }
    }
    true
}

// Whether a pair of one table has a frame of a pair of the other.
pub fn meet(t: Table, u: Table) -> bool
    requires t_value { tidy true (slots t) ≡ true }
    requires u_value { tidy true (slots u) ≡ true }
    ensures { result ≡ any_of (λ r. any_of (range.meets r) (entries (slots u.entry))) (entries (slots t.entry)) }
{
    let mut i = 0;
    let mut j = 0;
    // A merge walk, as above.
    while i < t.len && j < u.len {
        if t.words[2 * i + 1] < u.words[2 * j] {
            i += 1;
        } else if u.words[2 * j + 1] < t.words[2 * i] {
            j += 1;
        } else {
            return true;
        }
    }
    false
}

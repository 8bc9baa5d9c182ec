// The search for the chunks of one list that hold a request by address: document 01, "Address, in one list" (000,
// `find_specific_chunk`). The list is in either form, in its own part of the lent entries.
#![tactic(auto)]

ghost use Rattle.std.specs.Prelude.{◌≡◌, true, suc, ◌≤◌, ◌<◌, Some};
ghost use Rattle.model.specs.Lists.{range_at};
ghost use Rattle.model.specs.Rules.{rising};
ghost use Rattle.tables.specs.Slots.{slots};
ghost use Rattle.model.specs.Requests as model;
ghost use Rattle.lists.specs.Listed.{list_slots};
ghost use Rattle.request_search.specs.Searches.{one_chunk, answer_of};

use lists::List;
use memory_structs::FrameRange;
use model::Refusal;
use tables::Table;

// Chunks in a row that hold a request: from which slot on, how many, and the range that they make up.
#[derive(Clone, Copy)]
pub struct Chosen {
    pub first: usize,
    pub many: usize,
    pub range: FrameRange,
}

impl Chosen {
    // One chunk alone, the slot at i.
    pub fn one(i: usize, chunk: FrameRange) -> Chosen
        ensures { result ≡ one_chunk i chunk }
    {
        Chosen {
            first: i,
            many: 1,
            range: chunk,
        }
    }
}

// The chunks that hold every frame that is asked for, or why there are none.
#[tactic(auto, using(tables::proofs::Touching::tidy_rising))]
pub fn find_specific_chunk(list: List, asked: FrameRange) -> Result<Chosen, Refusal>
    requires { asked.start ≤ asked.end }
    ensures { result ≡ answer_of (model.find list.entry.part.sorted asked (list_slots list.entry)) }
{
    if list.part.sorted {
        return find_in_table(list.table(), asked);
    }
    match list.slots().first_holding(asked) {
        Some(i) => Ok(Chosen::one(i, list.entry(i))),
        None => Err(Refusal::NotFound),
    }
}

// The search in a table: by halving for the one chunk that can hold the first frame.
#[tactic(auto, using(tables::proofs::Touching::pair_bound, crate::proofs::Table::found_in, crate::proofs::Table::nothing_below))]
fn find_in_table(table: Table, asked: FrameRange) -> Result<Chosen, Refusal>
    requires { rising 0 (slots table) ≡ true }
    ensures { result ≡ answer_of (model.find true asked (slots table.entry)) }
{
    match table.highest_at_or_below(asked.start) {
        Some(i) => from_chunk(table, i, asked),
        None => Err(Refusal::NotFound),
    }
}

// The pair at i is the highest that starts at or below the request.
#[tactic(auto, unfolding(crate::specs::Searches::answer_of), using(crate::proofs::Table::below, crate::proofs::Table::holds_all, crate::proofs::Table::holds_first))]
fn from_chunk(table: Table, i: usize, asked: FrameRange) -> Result<Chosen, Refusal>
    requires { i < table.len }
    ensures { result ≡ answer_of (model.in_sorted asked (slots table.entry) (Some i)) }
{
    let chunk = table.entry(i);
    if chunk.end < asked.start {
        return Err(Refusal::NotFound);
    }
    if asked.end <= chunk.end {
        return Ok(Chosen::one(i, chunk));
    }
    with_next(table, i, chunk, asked.end)
}

// The pair at i holds the first frame and not the last: only the pair after it can help.
#[tactic(auto, using(crate::proofs::Table::none_next, crate::proofs::Table::gap_next, crate::proofs::Table::short_next, crate::proofs::Table::both_next))]
fn with_next(table: Table, i: usize, chunk: FrameRange, end: u64) -> Result<Chosen, Refusal>
    requires i_in_bounds { i < table.len }
    requires chunk_end_lt_end { chunk.end < end }
    ensures { result ≡ answer_of (model.with_next (slots table.entry) i end chunk (range_at (slots table.entry) (suc i))) }
{
    // The first frame that the pair at i lacks.
    let after = chunk.end + 1;
    let next = i + 1;
    if table.len <= next {
        return Err(Refusal::Missing {
            frame: after,
            count: end - chunk.end,
        });
    }
    let above = table.entry(next);
    if above.start != after {
        return Err(Refusal::NotFound);
    }
    if above.end < end {
        return Err(Refusal::TooShort);
    }
    Ok(Chosen {
        first: i,
        many: 2,
        range: FrameRange {
            start: chunk.start,
            end: above.end,
        },
    })
}

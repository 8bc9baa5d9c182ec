// What the lists of a header and entries that keep the rules say: document 01's three questions, which change nothing.
#![tactic(auto)]

ghost use Rattle.std.specs.Prelude.{◌≡◌, true, ◌≤◌, length};
ghost use Rattle.model.specs.Rules.{tidy};
ghost use Rattle.model.specs.Queries.{kind_of, total};
ghost use Rattle.pairs.specs.Early.{early_slots};
ghost use Rattle.lists.specs.Listed.{lists_of};
ghost use Rattle.pairs.specs.Ordered.{in_order};
ghost use Rattle.query_held.specs.Runs.{two_tables, HeldWritten};
ghost use Rattle.query_core.specs.Kinds.{free_list};
ghost use Rattle.query_core.specs.Listed.{Listed};

use lists::{FourLists, WhichList};
use memory_structs::FrameRange;
use model::{Answer, Kind, Refusal, SLOT_WORDS};
use pairs::{Slots, sorted_table};
use query_held::write_runs;

// "the kind (0 general, 1 reserved: any frame in a reserved region)" (000, `into_unmapped_frames`). 2 comes first, for an empty range too.
// An `Answer` here and below, and no `Result` of a kind: document 01 answers the kind as a count, and both callers hand the answer on.
#[tactic(auto, using(crate::proofs::Asked::kind_above, crate::proofs::Asked::kind_empty, crate::proofs::Asked::kind_reserved, crate::proofs::Asked::kind_general), unfolding(lists::specs::Whole::slots_at, model::specs::Words::word_of))]
pub fn kind(lists: FourLists, range: FrameRange) -> Answer
    ensures { result ≡ (kind_of range (lists_of lists.entry)).answer }
{
    if range.is_above_top() {
        return Answer::from(Refusal::OutOfBounds);
    }
    // An empty range has no frame in a region.
    if range.is_empty() {
        return Answer::counted(u64::from(Kind::General));
    }
    if lists.list(WhichList::ReservedRegions).meets(range) {
        return Answer::counted(u64::from(Kind::Reserved));
    }
    Answer::counted(u64::from(Kind::General))
}

// "**free total** of either free list"
#[tactic(auto, using(crate::proofs::Asked::total_is))]
pub fn free_total(lists: FourLists, kind: Kind) -> Answer
    ensures { result ≡ (total kind (lists_of lists.entry)).answer }
{
    let frames = lists.list(free_list(kind)).sum();
    Answer::counted(frames)
}

// The free list of a kind.
fn free_list(kind: Kind) -> WhichList
    ensures { result ≡ free_list kind }
{
    match kind {
        Kind::General => WhichList::GeneralFree,
        Kind::Reserved => WhichList::ReservedFree,
    }
}

// "**held list**, the maximal runs of general frames not free", "in ascending order of first frame" (document 02, One). The runs go to the
// beginning of the buffer, and their number is the count.
#[tactic(auto, using(crate::proofs::Forms::regions_in_order, crate::proofs::Forms::chunks_in_order))]
pub fn held_list(lists: FourLists, buffer: &mut [u64]) -> Answer
    requires { 2048 ≤ length buffer.old }
    ensures { Listed (lists_of lists.entry) buffer.old result buffer.new }
{
    let regions = lists.list(WhichList::GeneralRegions);
    let chunks = lists.list(WhichList::GeneralFree);
    // In sorted form the tables are in order.
    if lists.header.sorted {
        let count = write_runs(regions.table(), chunks.table(), buffer);
        return Answer::counted(count as u64);
    }
    let runs = write_from_pairs(regions.slots(), chunks.slots(), buffer);
    Answer::counted(runs as u64)
}

// The same walk over early slots, put in order first: 64 words of the stack for each list.
#[tactic(auto, using(crate::proofs::Forms::two_same))]
fn write_from_pairs(regions: Slots, chunks: Slots, buffer: &mut [u64]) -> usize
    requires buffer_len { 2048 ≤ length buffer.old }
    requires regions_value { tidy true (in_order (early_slots regions)) ≡ true }
    requires chunks_value { tidy true (in_order (early_slots chunks)) ≡ true }
    ensures { HeldWritten (two_tables (in_order (early_slots regions.entry)) (in_order (early_slots chunks.entry))) result buffer.old buffer.new }
{
    let mut region_pairs = [0; SLOT_WORDS];
    let mut chunk_pairs = [0; SLOT_WORDS];
    let regions = sorted_table(regions, &mut region_pairs);
    let chunks = sorted_table(chunks, &mut chunk_pairs);
    write_runs(regions, chunks, buffer)
}

// Questions, which change nothing: the kind of a range, the free total of either free list, the held list. Record and workspace are lent to be
// read, so that the answer alone comes back. Three calls of a `match` each, and none that takes the question as a closure: each states its own clause.
#![tactic(auto)]

ghost use Rattle.std.specs.Prelude.{◌≡◌, Err, IfOk, IfErr};
ghost use Rattle.model.specs.Calls.{kind_call, total_call, Answers, ListsHeld};
ghost use Rattle.rules.specs.Check.{verdict};
ghost use Rattle.queries.specs.Asked.{MayRead};

use lists::FourLists;
use memory_structs::FrameRange;
use model::{Answer, EARLY_WORDS, FrameAllocator, HELD_WORDS, Kind, Refusal};

// "the kind (0 general, 1 reserved: any frame in a reserved region)"
#[tactic(auto, using(crate::proofs::Asked::answers_read), unfolding(model::specs::Calls::answer, model::specs::Calls::short_buffer))]
pub fn kind_of_range(a: &FrameAllocator, words: &[u64], range: FrameRange) -> Answer
    ensures { Answers (kind_call range) a.now words.now result }
{
    let mut slots = [0u64; EARLY_WORDS];
    match lists_of(a, words, &mut slots) {
        Ok(lists) => query_core::kind(lists, range),
        Err(refusal) => Answer::from(refusal),
    }
}

// "**free total** of either free list"
#[tactic(auto, using(crate::proofs::Asked::answers_read), unfolding(model::specs::Calls::answer, model::specs::Calls::short_buffer))]
pub fn free_total(a: &FrameAllocator, words: &[u64], kind: Kind) -> Answer
    ensures { Answers (total_call kind) a.now words.now result }
{
    let mut slots = [0u64; EARLY_WORDS];
    match lists_of(a, words, &mut slots) {
        Ok(lists) => query_core::free_total(lists, kind),
        Err(refusal) => Answer::from(refusal),
    }
}

// "**held list**, the maximal runs of general frames not free, as pairs of words", and of document 02, One: "in ascending order of first
// frame". A buffer below 2,048 words is 3, before 11.
pub fn held_list(a: &FrameAllocator, words: &[u64], buffer: &mut [u64]) -> Answer
    ensures { ListsHeld a.now words.now buffer.old result buffer.new }
{
    if buffer.len() < HELD_WORDS {
        return Answer::from(Refusal::TooFewWords);
    }
    let mut slots = [0u64; EARLY_WORDS];
    match lists_of(a, words, &mut slots) {
        Ok(lists) => query_core::held_list(lists, buffer),
        Err(refusal) => Answer::from(refusal),
    }
}

// "Order: 3, 11", then the record's lists, to read.
#[tactic(auto, using(crate::proofs::Asked::may_read))]
fn lists_of<'a>(
    a: &FrameAllocator,
    words: &'a [u64],
    slots: &'a mut [u64; EARLY_WORDS],
) -> Result<FourLists<'a>, Refusal>
    ensures ok { IfOk result (MayRead a.now words.now) }
    ensures err { IfErr result (λ refusal. verdict a.now words.now ≡ Err refusal) }
{
    let opened = rules::open(a, words, slots);
    opened.tested?;
    Ok(lists::lists_of(opened.header, slots, words))
}

// A list of calls of any length, run from a record and its workspace: docs/RUN.md. The rules are tested once; what the calls give is what
// they give where each is tested by itself (`verdict_lasts`, rules/proofs/Lasting).
#![tactic(auto)]

ghost use Rattle.std.specs.Prelude.{◌≡◌, Ok, ◌&&◌, ◌++◌, ◌+◌, ◌≤◌, length, take, drop};
ghost use Rattle.model.specs.Store.{is_set};
ghost use Rattle.lists.specs.Packed.{Closable};
ghost use Rattle.run.specs.Runs.{record_now, ran_with, Runs};
ghost use Rattle.model.specs.Words.{answer_words};

use model::{Answer, EARLY_WORDS, FrameAllocator};
use rules::Opened;
use run_calls::RunCall;

// Why a run ended. No `Result`: a run that ends early has made calls too, and C reads all three endings as a number.
#[derive(Clone, Copy)]
pub enum RunEnd {
    Done,
    // At the next call's words, which are no call.
    Damaged,
    // The answers' buffer has no five words more.
    NoRoom,
}

// How many calls were made, and why no more.
#[derive(Clone, Copy)]
pub struct Ending {
    pub made: usize,
    pub end: RunEnd,
}

// What a run of a record by value hands back: how it ended, and the record after it.
#[derive(Clone, Copy)]
pub struct Ran {
    pub ending: Ending,
    pub allocator: FrameAllocator,
}

// Each call gets record and workspace as the call before left them. Its answer goes to the next five words of the buffer. The record is
// opened once; a boot or a sort, which may change the form, closes it and opens it again. Six parameters: each buffer of a run is lent by C.
pub fn run(
    a: &mut FrameAllocator,
    words: &mut [u64],
    calls: &[u64],
    areas: &[u64],
    answers: &mut [u64],
    held: &mut [u64],
) -> Ending
    ensures { Runs areas.now calls.now a.old words.old answers.old held.old (ran_with result a.new) words.new answers.new held.new }
{
    // While calls are made here, the lengths and the slots of the record itself may be old ones.
    let mut slots = [0u64; EARLY_WORDS];
    let mut opened = rules::open(a, words, &mut slots);
    let mut ending = Ending {
        made: calls.len() / 3,
        end: RunEnd::Done,
    };
    for made in 0..calls.len() / 3 {
        let [what, x, y] = calls.as_chunks::<3>().0[made];
        let decoded = run_calls::decode(areas.len(), what, x, y);
        let Some(command) = decoded else {
            let end = RunEnd::Damaged;
            ending = Ending { made, end };
            break;
        };
        let at = 5 * made;
        if answers.len() - at < 5 {
            let end = RunEnd::NoRoom;
            ending = Ending { made, end };
            break;
        }
        match command {
            RunCall::Keep(call) => {
                let done = run_calls::make_open(opened, &mut slots, words, call, held);
                put_answer(answers, at, done.answer);
                opened.header = done.header;
            }
            RunCall::Change(call) => {
                close_tested(opened, a, &slots);
                let answer = run_calls::change_form(a, words, opened.tested, call, areas);
                put_answer(answers, at, answer);
                opened.header = lists::take_apart(a, &mut slots);
            }
        }
    }
    close_tested(opened, a, &slots);
    ending
}

// The record as the calls left it; one that the test refuses stays as it was.
fn close_tested(opened: Opened, a: &mut FrameAllocator, slots: &[u64])
    requires { opened.tested ≡ Ok tt → Closable (is_set a.old.sorted && opened.header.sorted) slots.now }
    ensures { a.new ≡ record_now opened.tested a.old opened.header slots.now }
{
    if opened.tested.is_ok() {
        lists::close(a, opened.header, slots);
    }
}

// An answer in five words: number, start, end, frame, count. By a slice: five words from a place need no list of fives.
fn put_answer(answers: &mut [u64], at: usize, x: Answer)
    requires { at + 5 ≤ length answers.old }
    ensures { answers.new ≡ take at answers.old ++ answer_words x ++ drop (at + 5) answers.old }
{
    answers[at..at + 5].copy_from_slice(&<[u64; 5]>::from(x));
}

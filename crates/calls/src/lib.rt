// The calls that change the lists and keep their form, requests and returns: on entries, on an allocator that stands open, and on a record in
// place.
#![tactic(auto)]

ghost use Rattle.model.specs.Calls.{return_call, answer, Gives};
ghost use Rattle.lists.specs.Whole.{lists_in, Ruled, Does};
ghost use Rattle.lists.specs.Open.{lent, DoesOpen};
ghost use Rattle.rules.specs.Check.{answered_with};
ghost use Rattle.requests.specs.Asked as asked;
ghost use Rattle.calls.specs.Operations.{operation_call};

use lists::{HandedBack, Header};
use memory_structs::FrameRange;
use model::{Answer, EARLY_WORDS, FrameAllocator};
use requests::Request;

// A request or a return. Data, and no closure: `operation_call` says of both which call of the model they are, and the archive has `perform` once.
#[derive(Clone, Copy)]
pub enum Operation {
    Allocate(Request),
    Return(FrameRange),
}

// A request: document 01, "How a request is met".
pub fn allocate(a: &mut FrameAllocator, words: &mut [u64], request: Request) -> Answer
    ensures { Gives (asked.call_of request) a.old words.old (answered_with result a.new) words.new }
{
    perform(a, words, Operation::Allocate(request))
}

// A return: the frames of the range go back to the free list of their kind.
pub fn return_frames(a: &mut FrameAllocator, words: &mut [u64], range: FrameRange) -> Answer
    ensures { Gives (return_call range) a.old words.old (answered_with result a.new) words.new }
{
    perform(a, words, Operation::Return(range))
}

// "Order: 3, 11", then as the operation is done: opened, done, closed. The record stays where it is. What goes by value to the core, and
// comes back from it, is its header.
fn perform(a: &mut FrameAllocator, words: &mut [u64], operation: Operation) -> Answer
    ensures { Gives (operation_call operation) a.old words.old (answered_with result a.new) words.new }
{
    let mut slots = [0u64; EARLY_WORDS];
    let opened = rules::open(a, words, &mut slots);
    if let Err(refusal) = opened.tested {
        return Answer::from(refusal);
    }
    let done = operate(opened.header, &mut slots, words, operation);
    lists::close(a, done.header, &slots);
    done.answer
}

// On an allocator that stands open, whose entries are the workspace in sorted form and the slots in early form: the header goes by value, and both
// are lent.
pub fn operate(h: Header, slots: &mut [u64], words: &mut [u64], operation: Operation) -> HandedBack
    requires { Ruled h (lent h.sorted slots.old words.old) }
    ensures { DoesOpen (answer (operation_call operation)) h slots.old words.old result slots.new words.new }
{
    // Two calls, and no function that returns one of the two `&mut`: its caller would not know what either slice is left as, since the
    // check proves such a clause only where "the body hands on one field or a call's result".
    if h.sorted {
        return on_entries(h, words, operation);
    }
    on_entries(h, slots, operation)
}

// On the entries of a list in either form.
fn on_entries(h: Header, lists: &mut [u64], operation: Operation) -> HandedBack
    requires { Ruled h lists.old }
    ensures { Does (answer (operation_call operation) (lists_in h lists.old)) lists.old result lists.new }
{
    let done = match operation {
        Operation::Allocate(request) => requests::meet_request(h, lists, request),
        Operation::Return(range) => returns::give_back(h, lists, range),
    };
    h.answered(done)
}

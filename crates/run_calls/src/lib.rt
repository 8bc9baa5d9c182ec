// One call as three words, read and made: what the call is, and two numbers (docs/RUN.md). A list of them is run by `run`.
#![tactic(auto)]

ghost use Rattle.std.specs.Prelude.{◌≡◌, length, Ok};
ghost use Rattle.model.specs.Calls.{Gives};
ghost use Rattle.rules.specs.Check.{verdict, answered_with, RuledRecord};
ghost use Rattle.lists.specs.Whole as whole;
ghost use Rattle.lists.specs.Open.{lent};
ghost use Rattle.run_calls.specs.Commands as spec;
ghost use Rattle.run_calls.specs.Commands.{AreasListed, form_call, open_call};
ghost use Rattle.run_calls.specs.Made.{verdict_for, MadeOpen};

use boot_areas::AreaUnit;
use calls::Operation;
use lists::{HandedBack, Header};
use memory_structs::FrameRange;
use model::{Answer, FrameAllocator, HELD_WORDS, Kind, Refusal};
use requests::Request;
use rules::Opened;

// A call of a run: every call of demand 3 is one.
#[derive(Clone, Copy)]
pub enum RunCall {
    Change(FormCall),
    Keep(OpenCall),
}

// A call that may change the form: it is made on the record.
#[derive(Clone, Copy)]
pub enum FormCall {
    // So many areas of the lent list, from this one on.
    Boot {
        unit: AreaUnit,
        first: usize,
        count: usize,
    },
    Sort,
}

// A call that keeps the form: it is made on the allocator as it stands open. `Allocate` and `Return` stand here too: with `calls::Operation` inside,
// each line of `decode` would name a fourth enum.
#[derive(Clone, Copy)]
pub enum OpenCall {
    Allocate(Request),
    Return(FrameRange),
    KindOf(FrameRange),
    FreeTotal(Kind),
    HeldList,
}

// The numbers are those of docs/RUN.md. Words that the call doesn't use are not looked at. `None` where the first is no call, and for a boot whose areas are not all in the
// list: such a call is damaged.
#[tactic(auto, unfolding(crate::specs::Commands::decoded))]
pub fn decode(areas_len: usize, what: u64, x: u64, y: u64) -> Option<RunCall>
    ensures { result ≡ spec.decoded areas_len what x y }
{
    match what {
        0 => decode_boot(AreaUnit::Frames, areas_len, x, y),
        1 => decode_boot(AreaUnit::Bytes, areas_len, x, y),
        2 => Some(RunCall::Change(FormCall::Sort)),
        3 => Some(RunCall::Keep(OpenCall::Allocate(Request::Frames { num_frames: x }))),
        4 => Some(RunCall::Keep(OpenCall::Allocate(Request::Bytes { num_bytes: x }))),
        5 => Some(RunCall::Keep(OpenCall::Allocate(Request::FramesAt {
            frame: x,
            num_frames: y,
        }))),
        6 => Some(RunCall::Keep(OpenCall::Allocate(Request::BytesAt {
            address: x,
            num_bytes: y,
        }))),
        7 => Some(RunCall::Keep(OpenCall::Allocate(Request::GeneralFramesAt {
            frame: x,
            num_frames: y,
        }))),
        8 => Some(RunCall::Keep(OpenCall::Return(FrameRange::new(x, y)))),
        9 => Some(RunCall::Keep(OpenCall::KindOf(FrameRange::new(x, y)))),
        10 => Some(RunCall::Keep(OpenCall::FreeTotal(Kind::from(x)))),
        11 => Some(RunCall::Keep(OpenCall::HeldList)),
        _ => None,
    }
}

#[tactic(auto, unfolding(crate::specs::Commands::decoded_boot))]
fn decode_boot(unit: AreaUnit, areas_len: usize, first: u64, count: u64) -> Option<RunCall>
    ensures { result ≡ spec.decoded_boot unit areas_len first count }
{
    if !are_listed(areas_len, first, count) {
        return None;
    }
    Some(RunCall::Change(FormCall::Boot {
        unit,
        first: first as usize,
        count: count as usize,
    }))
}

// Whether so many areas from this one on stand in a list of so many words. The sum of the two numbers may be above what a word holds.
#[tactic(auto, using(crate::proofs::Decoding::listed_counted, crate::proofs::Decoding::listed_none))]
fn are_listed(areas_len: usize, first: u64, count: u64) -> bool
    ensures { result ≡ spec.are_listed areas_len first count }
{
    let areas = (areas_len / 3) as u64;
    first <= areas && count <= areas - first
}

// Makes a call that may change the form, on the record, which was tested before: its verdict lasts (`verdict_lasts`, rules/proofs/Lasting).
pub fn change_form(
    a: &mut FrameAllocator,
    words: &mut [u64],
    tested: Result<(), Refusal>,
    call: FormCall,
    areas: &[u64],
) -> Answer
    requires tested_value { tested ≡ verdict a.old words.old }
    requires listed { AreasListed (length areas.now) call }
    ensures { Gives (form_call areas.now call) a.old words.old (answered_with result a.new) words.new }
{
    match call {
        FormCall::Boot { unit, first, count } => {
            let from = 3 * first;
            let to = from + 3 * count;
            boot::boot_words(a, tested, &areas[from..to], unit)
        }
        FormCall::Sort => sort::sort_tested(a, tested, words),
    }
}

// Makes a call that keeps the form, on the allocator as it stands open; refused by the test, or by 3 for a held list whose buffer
// is too short: 3 comes before 11.
#[tactic(auto, using(crate::proofs::Making::request_made, crate::proofs::Making::return_made, crate::proofs::Making::kind_made, crate::proofs::Making::total_made))]
pub fn make_open(
    opened: Opened,
    slots: &mut [u64],
    words: &mut [u64],
    call: OpenCall,
    held: &mut [u64],
) -> HandedBack
    requires { opened.tested ≡ Ok tt → whole.Ruled opened.header (lent opened.header.sorted slots.old words.old) }
    ensures { MadeOpen (open_call (length held.old) call) opened.tested opened.header slots.old words.old held.old result slots.new words.new held.new }
{
    let h = opened.header;
    if let Err(refusal) = check_call(call, opened.tested, held.len()) {
        return answered(h, Answer::from(refusal));
    }
    match call {
        OpenCall::Allocate(request) => {
            calls::operate(h, slots, words, Operation::Allocate(request))
        }
        OpenCall::Return(range) => calls::operate(h, slots, words, Operation::Return(range)),
        OpenCall::KindOf(range) => {
            let lists = lists::lists_of(h, slots, words);
            answered(h, query_core::kind(lists, range))
        }
        OpenCall::FreeTotal(kind) => {
            let lists = lists::lists_of(h, slots, words);
            answered(h, query_core::free_total(lists, kind))
        }
        OpenCall::HeldList => {
            let lists = lists::lists_of(h, slots, words);
            answered(h, query_core::held_list(lists, held))
        }
    }
}

// What the test says, or 3 for a held list whose buffer is too short.
#[tactic(auto, using(crate::proofs::Making::other_verdict, crate::proofs::Making::short_verdict, crate::proofs::Making::long_verdict))]
fn check_call(call: OpenCall, tested: Result<(), Refusal>, buffer_len: usize) -> Result<(), Refusal>
    ensures { result ≡ verdict_for (open_call buffer_len call) tested }
{
    match call {
        OpenCall::HeldList if buffer_len < HELD_WORDS => Err(Refusal::TooFewWords),
        _ => tested,
    }
}

// A question leaves the header as it was.
fn answered(h: Header, answer: Answer) -> HandedBack
    ensures { result ≡ whole.handed_with answer h }
{
    HandedBack { answer, header: h }
}

// The calls of the allocator: each writes its answer, and leaves the record as the call does.
use crate::reading::Call;
use crate::shown::{self, Counted, Shown};
use model::{Answer, FrameAllocator, HELD_WORDS};
use std::io::{self, Write};

pub fn call(
    out: &mut impl Write,
    a: &mut FrameAllocator,
    words: &mut [u64],
    call: Call<'_>,
) -> io::Result<()> {
    match call {
        Call::Boot(areas) => told(out, boot::init(a, areas, words)),
        Call::BootBytes(areas) => told(out, boot::init_from_bytes(a, areas, words)),
        Call::Sort => told(out, sort::convert_frame_allocator_to_heap_based(a, words)),
        Call::Allocate(request) => told(out, calls::allocate(a, words, request)),
        Call::Return(range) => told(out, calls::return_frames(a, words, range)),
        Call::KindOf(range) => counted(out, queries::kind_of_range(a, words, range)),
        Call::Total(kind) => counted(out, queries::free_total(a, words, kind)),
        Call::Held => held(out, a, words, &mut [0; HELD_WORDS]),
        // In a buffer that is a word too short.
        Call::HeldShort => held(out, a, words, &mut [0; 2047]),
    }
}

// Writes a call's answer.
fn told(out: &mut impl Write, answer: Answer) -> io::Result<()> {
    writeln!(out, "{}", Shown(answer))
}

// Writes a question's answer. A question leaves the record as it is.
fn counted(out: &mut impl Write, answer: Answer) -> io::Result<()> {
    writeln!(out, "{}", Counted(answer))
}

fn held(
    out: &mut impl Write,
    a: &FrameAllocator,
    words: &[u64],
    buffer: &mut [u64],
) -> io::Result<()> {
    let answer = queries::held_list(a, words, buffer);
    write!(out, "{}", Counted(answer))?;
    // So many runs of the buffer.
    shown::pairs(out, buffer, answer.count as usize)?;
    writeln!(out)
}

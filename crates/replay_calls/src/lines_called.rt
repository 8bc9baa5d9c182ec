// Makes what a line asks for, writes the answer, and leaves the record as the call does.
use crate::reading::{Call, Line, Way};
use crate::{asked, broken, shown};
use model::{FrameAllocator, WORKSPACE_WORDS};
use std::io::{self, Write};

pub fn answer(
    out: &mut impl Write,
    a: &mut FrameAllocator,
    words: &mut [u64; WORKSPACE_WORDS],
    line: Line<'_>,
) -> io::Result<()> {
    match line {
        Line::Fresh => begin_again(out, a, words),
        Line::Lists => show(out, a, words),
        Line::Call(Way::Plain, call) => asked::call(out, a, words, call),
        // A change that the call makes to the record shows later.
        Line::Call(Way::Short, call) => asked::call(out, a, &mut words[..4095], call),
        // Only a copy of the record is broken.
        Line::Call(Way::BrokenSlot, call) => {
            asked::call(out, &mut broken::with_broken_slot(*a), words, call)
        }
        Line::Call(Way::BrokenWord, call) => broken_word(out, a, words, call),
    }
}

// Leaves the last word as it was.
fn broken_word(
    out: &mut impl Write,
    a: &mut FrameAllocator,
    words: &mut [u64; WORKSPACE_WORDS],
    call: Call<'_>,
) -> io::Result<()> {
    let last = words[4095];
    words[4095] = 1;
    let written = asked::call(out, a, words, call);
    words[4095] = last;
    written
}

fn show(
    out: &mut impl Write,
    a: &FrameAllocator,
    words: &[u64; WORKSPACE_WORDS],
) -> io::Result<()> {
    shown::record(out, a, words)?;
    writeln!(out)
}

fn begin_again(out: &mut impl Write, a: &mut FrameAllocator, words: &mut [u64]) -> io::Result<()> {
    words.fill(1);
    *a = model::fresh();
    writeln!(out, "done")
}

// The answer to a line that is no call.
pub fn bad(out: &mut impl Write) -> io::Result<()> {
    writeln!(out, "(bad)")
}

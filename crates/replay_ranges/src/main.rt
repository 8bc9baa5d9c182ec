// Replays the range and frame calls of a fixed list. A line of standard input is a call's name and its numbers, four at the most; a
// line of standard output is what our call answers. The file `stdout` holds what the Rust answered; oracle/README.md says how it was made.
#![tactic(auto)]

ghost use Rattle.std.specs.Prelude.{◌*◌, ◌^◌, ◌<◌};

use lines::Output;
use memory_structs::{FrameRange, OutOfBounds};
use range_answers::Shows;
use std::io::{Result as IoResult, Write};

// Standard input.
const STDIN_FILENO: i32 = 0;

// Reads up to 65,536 bytes of text, and answers each line; the last may lack its line end. No heap. A read that fails ends the text, and a write that
// fails is not told (`Output`).
fn main() {
    let mut text = io::large_buffer();
    let n = io::read_full(STDIN_FILENO, &mut text);
    let mut out = Output;
    for part in text[..n].split_inclusive(|b| *b == b'\n') {
        let _ = answer_line(&mut out, part.strip_suffix(b"\n").unwrap_or(part));
    }
}

// The call's name, and its numbers after it.
fn answer_line(out: &mut impl Write, line: &[u8]) -> IoResult<()> {
    let name_end = line.iter().position(|b| *b == b' ').unwrap_or(line.len());
    let (name, words) = line.split_at(name_end);
    let mut numbers = [0; 4];
    match lines::read_numbers(words, &mut numbers) {
        Ok(len) => answer(out, name, &numbers[..len]),
        Err(_) => bad(out),
    }
}

// Makes the call of this name where it takes so many numbers, and prints its answer.
fn answer(out: &mut impl Write, name: &[u8], numbers: &[u64]) -> IoResult<()> {
    match *numbers {
        [first, second] => answer_two(out, name, first, second),
        [start, end, n] => answer_three(out, name, FrameRange::new(start, end), n),
        [start, end, other_start, other_end] => answer_four(
            out,
            name,
            FrameRange::new(start, end),
            FrameRange::new(other_start, other_end),
        ),
        _ => bad(out),
    }
}

fn answer_two(out: &mut impl Write, name: &[u8], first: u64, second: u64) -> IoResult<()> {
    match name {
        b"size_in_frames" => print(
            out,
            FrameRange::new(first, second).size_in_frames().map(Some),
        ),
        b"from_phys_addr" => print(out, FrameRange::from_phys_addr(first, second).map(Some)),
        _ => bad(out),
    }
}

fn answer_three(out: &mut impl Write, name: &[u8], range: FrameRange, n: u64) -> IoResult<()> {
    match name {
        b"to_extended" => print(out, range.to_extended(n).map(Some)),
        b"offset_of_address" => print(out, range.offset_of_address(n)),
        b"address_at_offset" => print(out, range.address_at_offset(n)),
        b"split_at" => print(out, range.split_at(n)),
        _ => bad(out),
    }
}

// The calls on two ranges.
fn answer_four(
    out: &mut impl Write,
    name: &[u8],
    range: FrameRange,
    other: FrameRange,
) -> IoResult<()> {
    match name {
        b"contains_range" => print(
            out,
            range.contains_range(other).map(|found| found.then_some(())),
        ),
        b"overlap" => print(out, range.overlap(other)),
        b"merge" => print(out, range.merge(other)),
        b"split_range" => print(out, range.split_range(other)),
        _ => bad(out),
    }
}

// An answer as a line: `yes` or `no` and the value, a range as its start and end; `refused 2`.
fn print<T: Shows<N>, const N: usize>(
    out: &mut impl Write,
    answer: Result<Option<T>, OutOfBounds>,
) -> IoResult<()>
    requires fits { N * 8 < 2 ^ 63 }
{
    let (found, value) = match answer {
        Err(OutOfBounds) => {
            // One write, with the number of `OUT_OF_BOUNDS`, and the line's end another: one that fails loses no more.
            write!(out, "refused 2")?;
            return writeln!(out);
        }
        Ok(None) => (false, T::NONE),
        Ok(Some(value)) => (true, value),
    };
    let mut words = [0; N];
    value.put(found, &mut words);
    let said = if found { "yes" } else { "no" };
    write!(out, "{said}")?;
    // The first word says the same.
    for word in words.iter().skip(1) {
        write!(out, " {word}")?;
    }
    writeln!(out)
}

// The answer to a line that is no call.
fn bad(out: &mut impl Write) -> IoResult<()> {
    writeln!(out, "(bad)")
}

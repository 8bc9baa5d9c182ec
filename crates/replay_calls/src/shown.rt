// A record's lists and an answer as words of a line. Each word is a write of its own, so that one that fails loses that word alone.
use memory_structs::FrameRange;
use model::{Answer, EarlyList, FrameAllocator, SLOTS, WORKSPACE_WORDS};
use std::fmt::{self, Display, Formatter};
use std::io::{self, Write};

// An answer: `refused` and the number, `granted` and the range, or `done`. What else it holds follows: 15's frame and count, and any
// value that document 01 does not give.
#[derive(Clone, Copy)]
pub struct Shown(pub Answer);

impl Display for Shown {
    fn fmt<W: fmt::Write>(&self, f: &mut Formatter<W>) -> fmt::Result {
        let answer = self.0;
        // Where nothing is granted, the range is the constant [1,0] and no other empty one.
        let granted = answer.range != FrameRange::EMPTY;
        match answer.number {
            0 if granted => write!(f, "granted")?,
            0 => write!(f, "done")?,
            number => {
                write!(f, "refused")?;
                write!(f, " {number}")?;
                if granted {
                    write!(f, " granted")?;
                }
            }
        }
        if granted {
            write!(f, " {} {}", answer.range.start, answer.range.end)?;
        }
        if answer.frame != 0 || answer.count != 0 {
            write!(f, " {} {}", answer.frame, answer.count)?;
        }
        Ok(())
    }
}

// A question's answer: `counted` and the count where it is accepted, else as any answer.
#[derive(Clone, Copy)]
pub struct Counted(pub Answer);

impl Display for Counted {
    fn fmt<W: fmt::Write>(&self, f: &mut Formatter<W>) -> fmt::Result {
        let answer = self.0;
        if answer.number == 0 && answer.frame == 0 {
            write!(f, "counted")?;
            write!(f, " {}", answer.count)
        } else {
            write!(f, "{}", Shown(answer))
        }
    }
}

// The form and the four lists by name, each in stored order as starts and ends.
pub fn record(
    out: &mut impl Write,
    a: &FrameAllocator,
    words: &[u64; WORKSPACE_WORDS],
) -> io::Result<()> {
    if a.sorted == 1 {
        sorted(out, a, words)
    } else {
        early(out, a)
    }
}

fn sorted(
    out: &mut impl Write,
    a: &FrameAllocator,
    words: &[u64; WORKSPACE_WORDS],
) -> io::Result<()> {
    write!(out, "sorted")?;
    write!(out, " general_free")?;
    pairs(out, &words[..1024], a.general_free_len)?;
    write!(out, " reserved_free")?;
    pairs(out, &words[1024..2048], a.reserved_free_len)?;
    write!(out, " general_regions")?;
    pairs(out, &words[2048..3072], a.general_regions_len)?;
    write!(out, " reserved_regions")?;
    pairs(out, &words[3072..4096], a.reserved_regions_len)
}

fn early(out: &mut impl Write, a: &FrameAllocator) -> io::Result<()> {
    write!(out, "early")?;
    write!(out, " general_free")?;
    slots(out, &a.general_free)?;
    write!(out, " reserved_free")?;
    slots(out, &a.reserved_free)?;
    write!(out, " general_regions")?;
    slots(out, &a.general_regions)?;
    write!(out, " reserved_regions")?;
    slots(out, &a.reserved_regions)
}

// Of any record, a broken one too, so that no `Table` can be made of it.
pub fn pairs(out: &mut impl Write, t: &[u64], len: usize) -> io::Result<()> {
    for pair in t.chunks_exact(2).take(len) {
        entry(out, pair[0], pair[1])?;
    }
    Ok(())
}

// A dash stands for the unused slots below a used one.
fn slots(out: &mut impl Write, l: &EarlyList) -> io::Result<()> {
    let mut gap = false;
    for i in 0..SLOTS {
        let used = l.used[i] == 1;
        if used {
            if gap {
                write!(out, " -")?;
            }
            entry(out, l.starts[i], l.ends[i])?;
        }
        gap = !used;
    }
    Ok(())
}

fn entry(out: &mut impl Write, start: u64, end: u64) -> io::Result<()> {
    write!(out, " {start} {end}")
}

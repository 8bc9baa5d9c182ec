// What goes by value beside the lent entries: the form, and the tables' lengths.
ghost use Rattle.std.specs.Prelude.{◌≡◌, ◌+◌, ◌≤◌};
ghost use Rattle.lists.specs.Part as part;
ghost use Rattle.lists.specs.Whole.{part_of, length_at, with_length, part_in, answered_by};

use crate::Part;
use model::{Answer, Refusal, SLOT_WORDS, TABLE_WORDS};
use std::ops::Range;

// "Four: general free, reserved free, general regions, reserved regions."
#[derive(Clone, Copy)]
pub enum WhichList {
    GeneralFree,
    ReservedFree,
    GeneralRegions,
    ReservedRegions,
}

// The form, and each table's length, "0 in early form". It goes by value beside the entries, which are lent: small state by value, large state
// lent, and a struct of both would lend it too. Four fields and no array: no array goes by value through functions.
#[derive(Clone, Copy)]
pub struct Header {
    pub sorted: bool,
    pub general_free: usize,
    pub reserved_free: usize,
    pub general_regions: usize,
    pub reserved_regions: usize,
}

impl Header {
    // The form and the length of one of the lists.
    pub fn part(self, which: WhichList) -> Part
        ensures { result ≡ part_in which self }
    {
        Part {
            sorted: self.sorted,
            len: self.length_at(which),
        }
    }

    // Where its words stand in the entries.
    pub fn words_of(self, which: WhichList) -> Range<usize>
        ensures from { result.start ≡ part_of (part.width self.sorted) which }
        ensures to { result.end ≡ part_of (part.width self.sorted) which + part.width self.sorted }
    {
        let width = width(self.sorted);
        let from = part_of(width, which);
        from..from + width
    }

    #[tactic(auto, unfolding(crate::specs::Whole::length_at))]
    fn length_at(self, which: WhichList) -> usize
        ensures { result ≡ length_at which self }
    {
        match which {
            WhichList::GeneralFree => self.general_free,
            WhichList::ReservedFree => self.reserved_free,
            WhichList::GeneralRegions => self.general_regions,
            WhichList::ReservedRegions => self.reserved_regions,
        }
    }

    // The list has this length.
    #[tactic(auto, unfolding(crate::specs::Whole::with_length))]
    pub fn with_length(self, which: WhichList, len: usize) -> Header
        ensures { result ≡ with_length which self len }
    {
        match which {
            WhichList::GeneralFree => Header {
                general_free: len,
                ..self
            },
            WhichList::ReservedFree => Header {
                reserved_free: len,
                ..self
            },
            WhichList::GeneralRegions => Header {
                general_regions: len,
                ..self
            },
            WhichList::ReservedRegions => Header {
                reserved_regions: len,
                ..self
            },
        }
    }

    // What a call did, or why it is refused: then the header is as it was.
    pub fn answered(self, done: Result<HandedBack, Refusal>) -> HandedBack
        ensures { result ≡ answered_by self done }
    {
        match done {
            Ok(done) => done,
            Err(refusal) => HandedBack {
                answer: Answer::from(refusal),
                header: self,
            },
        }
    }
}

// How many words a list's part has.
#[tactic(auto, unfolding(crate::specs::Part::width))]
pub fn width(sorted: bool) -> usize
    ensures { result ≡ part.width sorted }
{
    if sorted { TABLE_WORDS } else { SLOT_WORDS }
}

// Where it begins.
#[tactic(auto, unfolding(crate::specs::Whole::part_of))]
pub fn part_of(width: usize, which: WhichList) -> usize
    requires { width ≤ 1024 }
    ensures { result ≡ part_of width which }
{
    match which {
        WhichList::GeneralFree => 0,
        WhichList::ReservedFree => width,
        WhichList::GeneralRegions => width + width,
        WhichList::ReservedRegions => width + width + width,
    }
}

// What a call on a header and lent entries hands back.
#[derive(Clone, Copy)]
pub struct HandedBack {
    pub answer: Answer,
    pub header: Header,
}

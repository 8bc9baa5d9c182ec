// Answers as words: 1 for yes, 0 for no and for 2, then the value, a range as its start and end. The number is returned.
#![tactic(auto)]

ghost use Rattle.std.specs.Prelude.{◌≡◌, ℕ, List, ◌∷◌, if◌then◌else◌};
ghost use Rattle.memory_structs.specs.Range.{empty};
ghost use Rattle.memory_structs.specs.Answers.{shown, no_parts, no_halves};
ghost use Rattle.range_answers.specs.Words.{Written, unit_words, number_words, range_words, split_words, halves_words};

use memory_structs::{FrameRange, Halves, OutOfBounds, SplitFrames};

// Document 01's number for what is out of bounds: the one refusal that the calls on ranges have. `model` has every number, and this
// crate stands below it.
pub const OUT_OF_BOUNDS: u64 = 2;

// A value that an answer may show; with the word before it that says whether there is one, it takes N words.
pub trait Shows<const N: usize> {
    ghost words: { Self → List ℕ };

    // "a no and an absent part show [1,0], or 0 where a number is returned"
    ghost NONE: { Self };

    const NONE: Self;

    // The flag is the first word that C reads, so it is written here with the others, and no `Option` is taken apart.
    fn put(self, found: bool, out: &mut [u64; N])
        ensures { out.new ≡ (if found then 1 else 0) ∷ words self };
}

impl Shows<1> for () {
    ghost words = { unit_words };

    ghost NONE = { tt };

    const NONE: () = ();

    fn put(self, found: bool, out: &mut [u64; 1]) {
        *out = [found as u64];
    }
}

impl Shows<2> for u64 {
    ghost words = { number_words };

    ghost NONE = { 0 };

    const NONE: u64 = 0;

    fn put(self, found: bool, out: &mut [u64; 2]) {
        *out = [found as u64, self];
    }
}

impl Shows<3> for FrameRange {
    ghost words = { range_words };

    ghost NONE = { empty };

    const NONE: FrameRange = FrameRange::EMPTY;

    fn put(self, found: bool, out: &mut [u64; 3]) {
        *out = [found as u64, self.start, self.end];
    }
}

impl Shows<5> for Halves {
    ghost words = { halves_words };

    ghost NONE = { no_halves };

    const NONE: Halves = Halves {
        first: FrameRange::EMPTY,
        second: FrameRange::EMPTY,
    };

    fn put(self, found: bool, out: &mut [u64; 5]) {
        *out = [
            found as u64,
            self.first.start,
            self.first.end,
            self.second.start,
            self.second.end,
        ];
    }
}

impl Shows<7> for SplitFrames {
    ghost words = { split_words };

    ghost NONE = { no_parts };

    const NONE: SplitFrames = SplitFrames {
        before_start: FrameRange::EMPTY,
        start_to_end: FrameRange::EMPTY,
        after_end: FrameRange::EMPTY,
    };

    fn put(self, found: bool, out: &mut [u64; 7]) {
        *out = [
            found as u64,
            self.before_start.start,
            self.before_start.end,
            self.start_to_end.start,
            self.start_to_end.end,
            self.after_end.start,
            self.after_end.end,
        ];
    }
}

pub fn put<T: Shows<N>, const N: usize>(
    answer: Result<Option<T>, OutOfBounds>,
    out: &mut [u64; N],
) -> u64
    ensures { Written T.words (shown T.NONE answer) result out.new }
{
    match answer {
        Err(OutOfBounds) => {
            T::NONE.put(false, out);
            OUT_OF_BOUNDS
        }
        Ok(None) => {
            T::NONE.put(false, out);
            0
        }
        Ok(Some(value)) => {
            value.put(true, out);
            0
        }
    }
}

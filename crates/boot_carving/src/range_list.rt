// A list of ranges in an array, which may be copied.

ghost use Rattle.std.specs.Prelude.{◌≡◌, ◌+◌, ◌++◌, ◌<◌, ◌≤◌, ◌∷◌, [], length, OnOk, OnErr};

use memory_structs::FrameRange;
use model::SLOTS;
use std::marker::Model;

// Ranges in the order in which they came. Neither boot's reserved areas (5) nor its pieces (7) are more than 32. An array and a length: the
// library's `ArrayVec` is not `Copy`. The places after the last range hold the empty one, so that a list is its ranges and nothing else.
#[derive(Clone, Copy)]
pub struct RangeList {
    ranges: [FrameRange; SLOTS],
    len: usize,
}

impl Model for RangeList {
    ghost use Rattle.std.specs.Prelude.{◌++◌, ◌-◌, length, take, replicate};
    ghost use Rattle.memory_structs.specs.Range.{empty};
    ghost use Rattle.boot_carving.specs.Listed.{Ranges, ListedIn, counted, refilled};

    ghost Value = { Ranges };

    ghost view = { λ l. record { items = take l.len l.ranges } };

    ghost invariant = { λ l. ListedIn 32 empty l.len l.ranges };

    ghost inverse = { λ v. record { ranges = v.items ++ replicate (32 - length v.items) empty; len = length v.items } };

    ghost inverse_ok = { λ l h i. record {
      ranges = refilled h i;
      len = counted h i;
    } };
}

// A list has no place for another range.
#[derive(Clone, Copy)]
pub struct Full;

impl RangeList {
    // A list of no ranges.
    pub fn new() -> RangeList
        ensures { result.items ≡ [] }
    {
        RangeList {
            ranges: [FrameRange::EMPTY; SLOTS],
            len: 0,
        }
    }

    pub fn len(&self) -> usize
        ensures value { result ≡ length self.now.items }
        ensures few { result ≤ 32 }
    {
        self.len
    }

    pub fn as_slice(&self) -> &[FrameRange]
        ensures ranges { result.now ≡ self.now.items }
        ensures few { length result.now ≤ 32 }
    {
        &self.ranges[..self.len]
    }

    // The range goes in at the end.
    pub fn push(&mut self, range: FrameRange)
        requires { length self.old.items < 32 }
        ensures items { self.new.items ≡ self.old.items ++ range ∷ [] }
        ensures len { length self.new.items ≡ length self.old.items + 1 }
    {
        self.ranges[self.len] = range;
        self.len += 1;
    }

    // The same, or nothing where there is no place.
    pub fn try_push(&mut self, range: FrameRange) -> Result<(), Full>
        ensures ok { OnOk result (self.new.items ≡ self.old.items ++ range ∷ []) }
        ensures room { OnOk result (length self.old.items < 32) }
        ensures err { OnErr result (self.new ≡ self.old) }
        ensures full { OnErr result (length self.old.items ≡ 32) }
    {
        if self.len == SLOTS {
            return Err(Full);
        }
        self.push(range);
        Ok(())
    }
}

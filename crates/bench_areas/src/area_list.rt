// A list of areas in an array, which may be copied.

ghost use Rattle.std.specs.Prelude.{◌≡◌, ◌++◌, ◌<◌, ◌≤◌, ◌∷◌, [], length};

use model::{Area, Kind};
use std::marker::Model;

// "`(free S E)`, `(reserved S E)` collect areas (64 each)", in the order in which they came. An array and a length, as `boot_carving::RangeList`:
// the library's `ArrayVec` is not `Copy`, and one type for both would hold an array of a type parameter, which no generic struct may. The places
// after the last area hold a blank one, so that a list is its areas and nothing else.
#[derive(Clone, Copy)]
pub struct Areas {
    areas: [Area; 128],
    len: usize,
}

impl Model for Areas {
    ghost use Rattle.std.specs.Prelude.{◌++◌, ◌-◌, length, take, replicate};
    ghost use Rattle.boot_carving.specs.Listed.{ListedIn, counted, refilled};
    ghost use Rattle.bench_areas.specs.Listed.{AreaList, blank};

    ghost Value = { AreaList };

    ghost view = { λ l. record { items = take l.len l.areas } };

    ghost invariant = { λ l. ListedIn 128 blank l.len l.areas };

    ghost inverse = { λ v. record { areas = v.items ++ replicate (128 - length v.items) blank; len = length v.items } };

    ghost inverse_ok = { λ l h i. record {
      areas = refilled h i;
      len = counted h i;
    } };
}

// What stands where there is no area: the invariant keeps it there, and no contract says anything of it.
const BLANK: Area = Area {
    start: 0,
    end: 0,
    kind: Kind::General,
};

impl Areas {
    // A list of no areas.
    pub fn new() -> Areas
        ensures { result.items ≡ [] }
    {
        Areas {
            areas: [BLANK; 128],
            len: 0,
        }
    }

    pub fn as_slice(&self) -> &[Area]
        ensures areas { result.now ≡ self.now.items }
        ensures few { length result.now ≤ 128 }
    {
        &self.areas[..self.len]
    }

    // The area goes in at the end.
    pub fn push(&mut self, area: Area)
        requires { length self.old.items < 128 }
        ensures { self.new.items ≡ self.old.items ++ area ∷ [] }
    {
        self.areas[self.len] = area;
        self.len += 1;
    }
}

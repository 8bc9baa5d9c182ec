// The four lists, in either form: a header by value, and their entries lent. Each is pairs of words in its own part of the entries. In sorted
// form these are the workspace and the part a table of 1,024 words; in early form 256 words taken out of the record (`packing`), the part 64 of
// them, 32 slots.
#![tactic(auto)]

ghost use Rattle.std.specs.Prelude.{◌≡◌, true, ◌<◌, length};
ghost use Rattle.model.specs.Lists as model;
ghost use Rattle.model.specs.Lists.{entries};
ghost use Rattle.model.specs.Rules.{slotted};
ghost use Rattle.lists.specs.Part.{Stored, part_slots, HoldsPart};

mod four_lists;
mod header;
mod list;
mod packing;

pub use four_lists::FourLists;
pub use header::{HandedBack, Header, WhichList, part_of, width};
pub use list::List;
use memory_structs::FrameRange;
use model::{ENTRIES, SLOTS};
pub use packing::{close, lists_of, take_apart};

// A list's form and its length, "0 in early form", as the record keeps them. It goes by value, beside the words of the list, which are lent. The
// form is a flag, as the model's definitions take it (`find sorted ..`, `bound sorted`): an enum would be turned into one in each clause.
#[derive(Clone, Copy)]
pub struct Part {
    pub sorted: bool,
    pub len: usize,
}

impl Part {
    // The range goes in: into the first slot that is not used, in sorted form where its start belongs. The length after it.
    pub fn insert(self, t: &mut [u64], range: FrameRange) -> usize
        requires part { HoldsPart self t.old }
        requires t_value { slotted self.sorted (part_slots self t.old) ≡ true }
        requires t_len_bound { length (entries (part_slots self t.old)) < model.bound self.sorted }
        ensures { Stored self.sorted (model.insert self.sorted range (part_slots self t.old)) result t.new }
    {
        if self.sorted {
            tables::insert(t, self.len, range);
            return self.len + 1;
        }
        pairs::insert(t, range);
        self.len
    }

    // "more than 32 (early) or 512 (sorted) entries"
    #[tactic(auto, unfolding(model::specs::Lists::bound))]
    pub fn bound(self) -> usize
        ensures { result ≡ model.bound self.sorted }
    {
        if self.sorted { ENTRIES } else { SLOTS }
    }
}

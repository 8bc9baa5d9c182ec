// One of the four lists to read.
ghost use Rattle.std.specs.Prelude.{◌≡◌, true, false, ◌≤◌, ◌<◌, length};
ghost use Rattle.memory_structs.specs.Range.{meets};
ghost use Rattle.model.specs.Lists as model;
ghost use Rattle.model.specs.Lists.{entries, range_at, any_of, in_union};
ghost use Rattle.model.specs.Rules.{tidy};
ghost use Rattle.model.specs.Requests.{large_enough};
ghost use Rattle.tables.specs.Slots.{slots};
ghost use Rattle.pairs.specs.Early.{early_slots};
ghost use Rattle.lists.specs.Part.{IsTidy};

use crate::Part;
use memory_structs::FrameRange;
use pairs::Slots;
use tables::Table;

// Its form and length, its words, lent, and that they keep the rules of one list.
#[derive(Clone, Copy)]
pub struct List<'a> {
    pub part: Part,
    pub words: &'a [u64],
    pub ghost tidy: { IsTidy part words.now },
}

impl<'a> List<'a> {
    ghost use Rattle.lists.specs.Listed.{list_slots};

    // How many entries the list has.
    #[tactic(auto, using(crate::proofs::Forms::sorted_count))]
    pub fn count(self) -> usize
        ensures { result ≡ length (entries (list_slots self.entry)) }
    {
        if self.part.sorted {
            return self.part.len;
        }
        self.slots().count()
    }

    // In sorted form it is a table.
    #[tactic(auto, unfolding(crate::specs::Part::pairs_in, crate::specs::Part::width))]
    pub fn table(self) -> Table<'a>
        requires { self.part.sorted ≡ true }
        ensures list { slots result ≡ list_slots self.entry }
        ensures keeps { tidy true (slots result) ≡ true }
    {
        Table {
            words: self.words,
            len: self.part.len,
        }
    }

    // In early form it is 32 slots.
    #[tactic(auto, unfolding(crate::specs::Part::pairs_in, crate::specs::Part::width))]
    pub fn slots(self) -> Slots<'a>
        requires { self.part.sorted ≡ false }
        ensures list { early_slots result ≡ list_slots self.entry }
        ensures keeps { tidy false (early_slots result) ≡ true }
    {
        Slots::new(self.words)
    }

    // The chunk that a request for n frames is taken from: the first that is large enough, in sorted form the highest.
    #[tactic(auto, unfolding(model::specs::Requests::large_enough))]
    pub fn find_large(self, n: u64) -> Option<usize>
        ensures { result ≡ large_enough self.entry.part.sorted n (list_slots self.entry) }
    {
        if self.part.sorted {
            return self.table().highest_large(n);
        }
        self.slots().first_large(n)
    }

    // The range of the slot at i: in either form the pair at i.
    #[tactic(auto, using(crate::proofs::Forms::in_part, crate::proofs::Forms::entry_at))]
    pub fn entry(self, i: usize) -> FrameRange
        requires { i < length (list_slots self) }
        ensures { result ≡ range_at (list_slots self.entry) i }
    {
        tables::entry(self.words, i)
    }

    // Whether an entry has a frame of the range.
    #[tactic(auto, using(crate::proofs::Meeting::none_met))]
    pub fn meets(self, range: FrameRange) -> bool
        ensures { result ≡ any_of (meets range) (entries (list_slots self.entry)) }
    {
        if range.is_empty() {
            return false;
        }
        if self.part.sorted {
            return table_meets(self.table(), range);
        }
        self.slots().contains_any(range)
    }

    // Whether every frame of the range is in an entry; entries may touch.
    pub fn covers(self, range: FrameRange) -> bool
        requires { range.start ≤ range.end }
        ensures { result ≡ in_union (entries (list_slots self.entry)) range }
    {
        if self.part.sorted {
            return self.table().covers(range);
        }
        self.slots().covers(range)
    }

    // The frames of all entries.
    pub fn sum(self) -> u64
        ensures { result ≡ model.sum (entries (list_slots self.entry)) }
    {
        if self.part.sorted {
            return self.table().sum();
        }
        self.slots().sum()
    }
}

// Whether an entry of a table has a frame of the range: only the highest that starts at or below the range's end can.
fn table_meets(table: Table, range: FrameRange) -> bool
    requires tidy { tidy true (slots table) ≡ true }
    requires start_le_end { range.start ≤ range.end }
    ensures { result ≡ any_of (meets range) (entries (slots table.entry)) }
{
    match table.highest_at_or_below(range.end) {
        Some(i) => range.start <= table.entry(i).end,
        None => false,
    }
}

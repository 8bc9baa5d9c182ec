// The four lists to read.
ghost use Rattle.std.specs.Prelude.{◌≡◌};
ghost use Rattle.lists.specs.Whole.{part_in, slots_at, Ruled};

use crate::{Header, List, WhichList};

// A header and the entries, lent, and that they keep the rules.
#[derive(Clone, Copy)]
pub struct FourLists<'a> {
    pub header: Header,
    pub entries: &'a [u64],
    pub ghost ruled: { Ruled header entries.now },
}

impl<'a> FourLists<'a> {
    ghost use Rattle.lists.specs.Listed.{list_slots, lists_of};

    // One of them, in its own part of the entries.
    #[tactic(auto, using(crate::proofs::Whole::lent_fits, crate::proofs::Whole::lent_slots, crate::proofs::Whole::lent_tidy))]
    pub fn list(self, which: WhichList) -> List<'a>
        ensures part { result.part ≡ part_in which self.entry.header }
        ensures list { list_slots result ≡ slots_at which (lists_of self.entry) }
    {
        List {
            part: self.header.part(which),
            words: &self.entries[self.header.words_of(which)],
        }
    }
}

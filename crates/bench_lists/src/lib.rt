// The line that `framebench` prints for one of the four lists: document 01, "The bench program".
#![tactic(auto)]

ghost use Rattle.std.specs.Prelude.{◌≡◌, ◌+◌, ◌≤◌, ◌++◌, length};
ghost use Rattle.model.specs.Lists.{entries};
ghost use Rattle.lists.specs.Listed.{list_slots, lists_of};
ghost use Rattle.bench_lists.specs.ListLines.{entry_room, entries_room, line_room, entry_text, entries_text, name_text, line_of};

use arrayvec::ArrayVec;
use bench_texts::{put_range, put_text};
use lists::{FourLists, List, WhichList};
use memory_structs::FrameRange;
use model::SLOTS;

// Puts the line after what is there.
#[tactic(auto, using(crate::proofs::Going::name_length))]
pub fn put_list<const N: usize>(out: &mut ArrayVec<u8, N>, lists: FourLists, which: WhichList)
    requires { length out.old.items + line_room ≤ N }
    ensures { out.new.items ≡ out.old.items ++ line_of which (lists_of lists.entry) }
{
    put_name(out, which);
    put_entries(out, lists.list(which));
    put_text(out, b")\n");
}

#[tactic(auto, unfolding(crate::specs::ListLines::name_text))]
fn put_name<const N: usize>(out: &mut ArrayVec<u8, N>, which: WhichList)
    requires { length out.old.items + line_room ≤ N }
    ensures { out.new.items ≡ out.old.items ++ name_text which }
{
    match which {
        WhichList::GeneralFree => put_text(out, b"(general-free"),
        WhichList::ReservedFree => put_text(out, b"(reserved-free"),
        WhichList::GeneralRegions => put_text(out, b"(general-regions"),
        WhichList::ReservedRegions => put_text(out, b"(reserved-regions"),
    }
}

// The pairs of a table, or the slots that are used: a slot that is not used holds the empty range.
fn put_entries<const N: usize>(out: &mut ArrayVec<u8, N>, list: List)
    requires { length out.old.items + entries_room ≤ N }
    ensures { out.new.items ≡ out.old.items ++ entries_text (entries (list_slots list.entry)) }
{
    for i in 0..slots_in(list) {
        let slot = list.entry(i);
        if !slot.is_empty() {
            put_entry(out, slot);
        }
    }
}

// How many slots the list has.
#[tactic(auto, using(lists::proofs::Forms::sorted_length, lists::proofs::Forms::early_length))]
fn slots_in(list: List) -> usize
    ensures { result ≡ length (list_slots list.entry) }
{
    if list.part.sorted {
        list.part.len
    } else {
        SLOTS
    }
}

fn put_entry<const N: usize>(out: &mut ArrayVec<u8, N>, entry: FrameRange)
    requires { length out.old.items + entry_room ≤ N }
    ensures { out.new.items ≡ out.old.items ++ entry_text entry }
{
    put_range(out, b" (", entry, b")");
}

// An allocator is taken apart for calls and closed after them: from a record to a header and entries, and back. In early form the entries
// are the record's slots as pairs of words, in sorted form the workspace. `rules::open` takes it apart and tests it.
ghost use Rattle.std.specs.Prelude.{◌≡◌, ◌&&◌, length};
ghost use Rattle.model.specs.Store.{is_set, early_of};
ghost use Rattle.pairs.specs.Pairs.{pair_slots, IsPairs};
ghost use Rattle.lists.specs.Whole.{Ruled};
ghost use Rattle.lists.specs.Open.{lent};
ghost use Rattle.lists.specs.Packed.{interleaved, packed, header_in, Closable, closed, Apart};

use crate::{FourLists, Header};
use memory_structs::FrameRange;
use model::{EARLY_WORDS, EarlyList, FrameAllocator, SLOTS};

// The header, and in early form the slots of the four lists, without a test.
pub fn take_apart(a: &FrameAllocator, slots: &mut [u64; EARLY_WORDS]) -> Header
    ensures { Apart a.now result slots.new }
{
    let header = header_of(a);
    if header.sorted {
        return header;
    }
    pack(a, slots);
    header
}

// The form, and each table's length: a line for each list (`FrameAllocator`).
fn header_of(a: &FrameAllocator) -> Header
    ensures { result ≡ header_in a.now }
{
    Header {
        sorted: a.sorted == 1,
        general_free: a.general_free_len,
        reserved_free: a.reserved_free_len,
        general_regions: a.general_regions_len,
        reserved_regions: a.reserved_regions_len,
    }
}

// The four lists of a record in early form, a line for each (`FrameAllocator`). The parts are written as numbers here, in `close`, `rules` and
// `sort`: document 01's 32 slots and 512 pairs, list after list, are plainer to read so than by the name of each.
fn pack(a: &FrameAllocator, entries: &mut [u64; EARLY_WORDS])
    ensures { entries.new ≡ packed a.now }
{
    pack_list(&a.general_free, &mut entries[0..64]);
    pack_list(&a.reserved_free, &mut entries[64..128]);
    pack_list(&a.general_regions, &mut entries[128..192]);
    pack_list(&a.reserved_regions, &mut entries[192..256]);
}

// Starts and ends, pair by pair.
fn pack_list(list: &EarlyList, t: &mut [u64])
    requires { length t.old ≡ 64 }
    ensures words { t.new ≡ interleaved list.now.starts list.now.ends }
    ensures size { length t.new ≡ 64 }
{
    for i in 0..SLOTS {
        tables::put(t, i, FrameRange::new(list.starts[i], list.ends[i]));
    }
}

// The lists of an allocator that stands open, to read.
pub fn lists_of<'a>(h: Header, slots: &'a [u64], words: &'a [u64]) -> FourLists<'a>
    requires { Ruled h (lent h.sorted slots.now words.now) }
    ensures header { result.header ≡ h }
    ensures entries { result.entries.now ≡ lent h.sorted slots.now words.now }
{
    FourLists {
        header: h,
        entries: entries_of(h, slots, words),
    }
}

// Its entries: the workspace in sorted form, the slots in early form.
#[tactic(auto, unfolding(crate::specs::Open::lent))]
fn entries_of<'a>(h: Header, slots: &'a [u64], words: &'a [u64]) -> &'a [u64]
    ensures { result.now ≡ lent h.sorted slots.now words.now }
{
    if h.sorted { words } else { slots }
}

// What the calls left, in the record: the header and, unless the record was in sorted form and still is, the slots. A line for each
// list (`FrameAllocator`).
pub fn close(a: &mut FrameAllocator, h: Header, slots: &[u64])
    requires { Closable (is_set a.old.sorted && h.sorted) slots.now }
    ensures { a.new ≡ closed a.old h slots.now }
{
    let sorted = stays_sorted(a.sorted == 1, h.sorted);
    a.sorted = u8::from(h.sorted);
    a.general_free_len = h.general_free;
    a.reserved_free_len = h.reserved_free;
    a.general_regions_len = h.general_regions;
    a.reserved_regions_len = h.reserved_regions;
    if sorted {
        return;
    }
    unpack_list(&mut a.general_free, &slots[0..64]);
    unpack_list(&mut a.reserved_free, &slots[64..128]);
    unpack_list(&mut a.general_regions, &slots[128..192]);
    unpack_list(&mut a.reserved_regions, &slots[192..256]);
}

// "in sorted form every early slot is unused": where the form was and is sorted, the record's slots are as they are to be. A function, since
// `&&` in its place would have each of the four lists proved once for each way through it.
fn stays_sorted(before: bool, after: bool) -> bool
    ensures { result ≡ (before && after) }
{
    before && after
}

// The slots of a list's pairs. "`Option` slots: a used flag": an empty pair is a slot that is not used.
fn unpack_list(list: &mut EarlyList, t: &[u64])
    requires { IsPairs t.now }
    ensures { list.new ≡ early_of (pair_slots 32 t.now) }
{
    for i in 0..SLOTS {
        let slot = tables::entry(t, i);
        list.starts[i] = slot.start;
        list.ends[i] = slot.end;
        list.used[i] = u8::from(slot.start <= slot.end);
    }
}

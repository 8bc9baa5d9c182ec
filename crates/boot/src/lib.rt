// From a boot map to the four lists: document 01, "Boot" (000, `init`).
#![tactic(auto)]

ghost use Rattle.std.specs.Prelude.{◌≡◌, ◌==◌, ℕ, List, length, not, Ok, Err, OnOk, OnErr};
ghost use Rattle.model.specs.Boot as model;
ghost use Rattle.model.specs.Calls.{boot_call, boot_bytes_call, Gives, no_entries};
ghost use Rattle.model.specs.Lists.{entries};
ghost use Rattle.model.specs.Refusals.{refused_by};
ghost use Rattle.model.specs.Store.{slots_of, load, record_of};
ghost use Rattle.model.specs.declared.refusals.Refusal.{Refusal};
ghost use Rattle.rules.specs.Check.{verdict, answered_with};
ghost use Rattle.boot_areas.specs.Areas.{areas_in, byte_areas_in, extents};
ghost use Rattle.boot_areas.specs.Boots.{boot_call_of};
ghost use Rattle.boot.specs.Boots.{boot_number};

use boot_areas::{AreaUnit, BootMap, WordAreas};
use boot_carving::RangeList;
use model::{Answer, EarlyList, FrameAllocator, Refusal};

// Boots from areas given as first frame, last frame and kind. The workspace has 4,096 words in either form, else 3; it is read only in
// sorted form, and never written.
#[tactic(auto, unfolding(boot_areas::specs::Boots::boot_call_of))]
pub fn init(a: &mut FrameAllocator, areas: &[u64], words: &[u64]) -> Answer
    ensures { Gives (boot_call (areas_in areas.now)) a.old words.now (answered_with result a.new) words.now }
{
    let unit = AreaUnit::Frames;
    boot_map(a, &WordAreas { words: areas, unit }, words)
}

// "A second entry takes areas as start address, byte size and kind".
#[tactic(auto, unfolding(boot_areas::specs::Boots::boot_call_of))]
pub fn init_from_bytes(a: &mut FrameAllocator, areas: &[u64], words: &[u64]) -> Answer
    ensures { Gives (boot_bytes_call (byte_areas_in areas.now)) a.old words.now (answered_with result a.new) words.now }
{
    let unit = AreaUnit::Bytes;
    boot_map(a, &WordAreas { words: areas, unit }, words)
}

// A boot from areas in either unit, of a record whose test is known. The verdict goes along and refuses here: a run of a record that is refused goes
// on, and each of its calls answers the refusal.
pub fn boot_words(
    a: &mut FrameAllocator,
    tested: Result<(), Refusal>,
    areas: &[u64],
    unit: AreaUnit,
) -> Answer
    ensures { (ws : List ℕ) → tested ≡ verdict a.old ws → Gives (boot_call_of unit areas.now) a.old ws (answered_with result a.new) ws }
{
    boot_tested(a, tested, &WordAreas { words: areas, unit })
}

// A boot from a map in any form.
pub fn boot_map<M: BootMap>(a: &mut FrameAllocator, map: &M, words: &[u64]) -> Answer
    ensures { Gives (M.call map.now) a.old words.now (answered_with result a.new) words.now }
{
    let tested = rules::check(a, words);
    boot_tested(a, tested, map)
}

fn boot_tested<M: BootMap>(a: &mut FrameAllocator, tested: Result<(), Refusal>, map: &M) -> Answer
    ensures { (ws : List ℕ) → tested ≡ verdict a.old ws → Gives (M.call map.now) a.old ws (answered_with result a.new) ws }
{
    match fill(a, tested, map) {
        Ok(()) => Answer::counted(0),
        Err(refusal) => Answer::from(refusal),
    }
}

// "Order: 3, 11; boot then 10, 5, 4, 2, 7, 6"; else the lists are filled.
#[tactic(auto, using(crate::proofs::Numbers::first_refusals, crate::proofs::Numbers::seven, crate::proofs::Numbers::joined_apart, crate::proofs::Numbers::six, crate::proofs::Numbers::fills, crate::proofs::Numbers::filled, crate::proofs::Given::ten, crate::proofs::Given::after_10))]
fn fill<M: BootMap>(
    a: &mut FrameAllocator,
    tested: Result<(), Refusal>,
    map: &M,
) -> Result<(), Refusal>
    ensures tested { (r : Refusal) → tested ≡ Err r → result ≡ Err r }
    ensures number { (ws : List ℕ) → tested ≡ Ok tt → refused_by result ≡ boot_number (load a.old ws) (M.areas map.now) }
    ensures ok { OnOk result (a.new ≡ record_of (model.booted (extents (M.areas map.now)))) }
    ensures err { OnErr result (a.new ≡ a.old) }
{
    tested?;
    if has_entries(a) {
        return Err(Refusal::NotEmpty);
    }
    let reserved = boot_areas::collect(map)?;
    let mut pieces = RangeList::new();
    boot_areas::carve(map, reserved.as_slice(), &mut pieces)?;
    let joined = boot_joining::join(reserved);
    if !boot_filling::are_disjoint(pieces.as_slice(), joined.as_slice()) {
        return Err(Refusal::PiecesMeet);
    }
    boot_filling::fill_lists(a, pieces.as_slice(), joined.as_slice());
    Ok(())
}

// 10: "boot, and any list is not empty". In sorted form the record keeps how many entries there are; the words are not looked at.
// A line for each list, as in all that meets the four (`FrameAllocator`).
#[tactic(auto, using(crate::proofs::Entries::sorted_entries, crate::proofs::Entries::early_entries))]
fn has_entries(a: &FrameAllocator) -> bool
    ensures { (ws : List ℕ) → result ≡ not (no_entries (load a.now ws)) }
{
    if a.sorted == 1 {
        return a.general_free_len != 0
            || a.reserved_free_len != 0
            || a.general_regions_len != 0
            || a.reserved_regions_len != 0;
    }
    is_any_used(&a.general_free)
        || is_any_used(&a.reserved_free)
        || is_any_used(&a.general_regions)
        || is_any_used(&a.reserved_regions)
}

// Whether some slot is used.
fn is_any_used(list: &EarlyList) -> bool
    ensures { result ≡ not (length (entries (slots_of list.now)) == 0) }
{
    list.used.contains(&1)
}

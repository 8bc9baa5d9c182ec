// The areas of a boot map, in any form: document 01, "Areas come as a lent list of start, end and kind".
#![tactic(auto)]

ghost use Rattle.std.specs.Prelude.{◌≡◌, ◌<◌, [], ◌∷◌, ◌++◌, List, map, length, take, get_or, IfErr, OnOk, OnErr};
ghost use Rattle.model.specs.Calls.{Call, boot_call, boot_bytes_call};
ghost use Rattle.model.specs.declared.refusals.Refusal.TheVariants.{TooManyPieces};
ghost use Rattle.boot_carving.specs.Ranges.{Carvable};
ghost use Rattle.boot_areas.specs.Areas.{collected, pieces_in, boot_area, boot_byte_area, area_of, read, no_area};
ghost use Rattle.boot_areas.specs.Surveys.{Surveys};
ghost use Rattle.boot_areas.specs.Boots.{IsBoot, Bounded, boot_call_of};
ghost use Rattle.boot_areas.specs.declared.BootArea.{BootArea};
ghost use Rattle.boot_areas.specs.Laws.{frames_boot, bytes_boot, words_boot, frames_bounded, bytes_bounded, words_bounded};

use boot_carving::{Full, RangeList, check_and_add_free_region};
use memory_structs::FrameRange;
use model::{Area, ByteArea, Kind, Refusal};

// An area as boot takes it: its frames, its kind, and whether 2 refuses it. No `Result`: 5 and 4 come before 2, so an area that 2 refuses is
// looked at all the same.
#[derive(Clone, Copy)]
pub struct BootArea {
    pub frames: FrameRange,
    pub kind: Kind,
    pub outside: bool,
}

// A boot map: areas in the given order, and the call that boots from them. A count and an index, and no iterator: a method of a trait has no
// `impl Trait` as its result.
pub trait BootMap {
    ghost areas: { Self → List BootArea };

    ghost call: { Self → Call };

    fn area_count(&self) -> usize
        ensures { result ≡ length (areas self.now) };

    fn area_at(&self, i: usize) -> BootArea
        requires { i < length (areas self.now) }
        ensures { result ≡ get_or (areas self.now) i no_area };

    // The areas are those of the call, and 2 refuses the same.
    ghost is_boot: { (m : Self) → IsBoot (call m) (areas m) };

    // An area that 2 lets pass ends at or below the top.
    ghost bounded: { (m : Self) → Bounded (areas m) };
}

// An area of a map that is a slice of areas. A trait and no `From`, whose clause is a relation: the laws need a function to `map`.
pub trait MapArea: Copy {
    ghost taken: { Self → BootArea };

    ghost call: { List Self → Call };

    fn boot_area(self) -> BootArea
        ensures { result ≡ taken self };

    ghost is_boot: { (xs : List Self) → IsBoot (call xs) (map taken xs) };

    ghost bounded: { (xs : List Self) → Bounded (map taken xs) };
}

// Areas given as first frame, last frame and kind.
impl MapArea for Area {
    ghost taken = { boot_area };

    ghost call = { boot_call };

    ghost is_boot = { frames_boot };

    ghost bounded = { frames_bounded };

    #[tactic(auto, unfolding(crate::specs::Areas::frame_area))]
    fn boot_area(self) -> BootArea {
        let frames = FrameRange::new(self.start, self.end);
        BootArea {
            frames,
            kind: self.kind,
            outside: frames.is_above_top(),
        }
    }
}

// Areas given as address, size in bytes and kind.
impl MapArea for ByteArea {
    ghost taken = { boot_byte_area };

    ghost call = { boot_bytes_call };

    ghost is_boot = { bytes_boot };

    ghost bounded = { bytes_bounded };

    #[tactic(auto, unfolding(crate::specs::Areas::byte_area))]
    fn boot_area(self) -> BootArea {
        BootArea {
            frames: FrameRange::touched(self.address, self.bytes),
            kind: self.kind,
            outside: FrameRange::bytes_out_of_bounds(self.address, self.bytes),
        }
    }
}

impl<A: MapArea> BootMap for &[A] {
    ghost areas = { λ m. map A.taken m.now };

    ghost call = { λ m. A.call m.now };

    ghost is_boot = { λ m. A.is_boot m.now };

    ghost bounded = { λ m. A.bounded m.now };

    fn area_count(&self) -> usize {
        self.len()
    }

    fn area_at(&self, i: usize) -> BootArea {
        self[i].boot_area()
    }
}

// What the first two words of an area are: its first and last frame, or its address and its size in bytes. A value and no type
// parameter, since `run` reads it from a word of the lent calls.
#[derive(Clone, Copy)]
pub enum AreaUnit {
    Frames,
    Bytes,
}

// Areas as words, three to an area, the third of them the kind. Words after the last whole area are not read. Words and no `Area`s: C hands over
// no enum, and a run's areas are lent words too (docs/RUN.md).
#[derive(Clone, Copy)]
pub struct WordAreas<'a> {
    pub words: &'a [u64],
    pub unit: AreaUnit,
}

impl BootMap for WordAreas<'_> {
    ghost areas = { λ m. read m.unit m.words.now };

    ghost call = { λ m. boot_call_of m.unit m.words.now };

    ghost is_boot = { λ m. words_boot m.unit m.words.now };

    ghost bounded = { λ m. words_bounded m.unit m.words.now };

    #[tactic(auto, using(crate::proofs::Read::triples_count))]
    fn area_count(&self) -> usize {
        self.words.as_chunks::<3>().0.len()
    }

    #[tactic(auto, using(crate::proofs::Read::triples_count, crate::proofs::Read::chunk_at))]
    fn area_at(&self, i: usize) -> BootArea {
        let [first, second, third] = self.words.as_chunks::<3>().0[i];
        area_of(self.unit, first, second, third)
    }
}

// The area of three words.
#[tactic(auto, unfolding(crate::specs::Areas::area_of))]
fn area_of(unit: AreaUnit, first: u64, second: u64, third: u64) -> BootArea
    ensures { result ≡ area_of unit first second third }
{
    let kind = Kind::from(third);
    match unit {
        AreaUnit::Frames => Area {
            start: first,
            end: second,
            kind,
        }
        .boot_area(),
        AreaUnit::Bytes => ByteArea {
            address: first,
            bytes: second,
            kind,
        }
        .boot_area(),
    }
}

// What is known of all areas before the first is carved: the reserved ones in the given order, the first 32 of them, whether there are more (5), whether
// one is empty (4), and whether 2 refuses any area.
#[derive(Clone, Copy)]
pub struct Collected {
    pub reserved: RangeList,
    pub any_more: bool,
    pub any_empty: bool,
    pub any_outside: bool,
}

// Reads the whole map once, however long it is and however the kinds are mixed. It refuses nothing: which of 5, 4 and 2 comes first is for `collect`.
#[tactic(auto, using(crate::proofs::Surveyed::all_surveyed))]
pub fn survey<M: BootMap>(map: &M) -> Collected
    ensures { Surveys (M.areas map.now) result }
{
    let mut seen = Collected {
        reserved: RangeList::new(),
        any_more: false,
        any_empty: false,
        any_outside: false,
    };
    for i in 0..map.area_count() {
        collect_area(&mut seen, map.area_at(i));
    }
    seen
}

// One area more.
fn collect_area(seen: &mut Collected, area: BootArea)
    ensures { (xs : List BootArea) → Surveys xs seen.old → Surveys (xs ++ area ∷ []) seen.new }
{
    seen.any_outside |= area.outside;
    match area.kind {
        Kind::General => {}
        Kind::Reserved => {
            seen.any_empty |= area.frames.is_empty();
            if let Err(Full) = seen.reserved.try_push(area.frames) {
                seen.any_more = true;
            }
        }
    }
}

// The reserved areas in the given order, or what refuses a boot before any area is carved: "5, 4, 2", in this order, over the whole map.
pub fn collect<M: BootMap>(map: &M) -> Result<RangeList, Refusal>
    ensures { result ≡ collected (M.areas map.now) }
{
    let seen = survey(map);
    if seen.any_more {
        return Err(Refusal::TooManyReservedAreas);
    }
    if seen.any_empty {
        return Err(Refusal::EmptyReservedArea);
    }
    if seen.any_outside {
        return Err(Refusal::OutOfBounds);
    }
    Ok(seen.reserved)
}

// The pieces of each general area go in, in the given order. Where they are more than 32 it is refused, and the first 32 are in the list.
#[tactic(auto, using(crate::proofs::Steps::carve_many, crate::proofs::Steps::carve_first, crate::proofs::Steps::carving_end))]
pub fn carve<M: BootMap>(
    map: &M,
    reserved: &[FrameRange],
    pieces: &mut RangeList,
) -> Result<(), Refusal>
    requires { Carvable reserved.now }
    ensures ok { OnOk result (pieces.new.items ≡ pieces.old.items ++ pieces_in reserved.now (M.areas map.now)) }
    ensures err { IfErr result (λ refusal. refusal ≡ TooManyPieces) }
    ensures many { OnErr result (32 < length (pieces.old.items ++ pieces_in reserved.now (M.areas map.now))) }
    ensures full { OnErr result (pieces.new.items ≡ take 32 (pieces.old.items ++ pieces_in reserved.now (M.areas map.now))) }
{
    for i in 0..map.area_count() {
        let area = map.area_at(i);
        match area.kind {
            Kind::General => check_and_add_free_region(reserved, area.frames, pieces)?,
            Kind::Reserved => {}
        }
    }
    Ok(())
}

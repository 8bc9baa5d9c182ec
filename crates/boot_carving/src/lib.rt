// Carving: a general area without its reserved areas. Document 01, "Carving" (000, `check_and_add_free_region`).
#![tactic(auto)]

ghost use Rattle.std.specs.Prelude.{◌≡◌, ◌++◌, ◌<◌, ◌≤◌, length, take, OnOk, OnErr, IfErr};
ghost use Rattle.memory_structs.specs.Range as range;
ghost use Rattle.model.specs.Carving as model;
ghost use Rattle.model.specs.declared.refusals.Refusal.TheVariants.{TooManyPieces};
ghost use Rattle.boot_carving.specs.Ranges.{Carvable};

mod range_list;

use memory_structs::FrameRange;
use model::Refusal;
pub use range_list::{Full, RangeList};

// A piece goes in where it has a frame. The 33rd is refused; the first 32 stay.
#[tactic(auto, using(crate::proofs::Listing::none_more), unfolding(model::specs::Carving::piece))]
fn push_piece(pieces: &mut RangeList, piece: FrameRange) -> Result<(), Refusal>
    ensures ok { OnOk result (pieces.new.items ≡ pieces.old.items ++ model.piece piece.start piece.end) }
    ensures err { IfErr result (λ refusal. refusal ≡ TooManyPieces) }
    ensures many { OnErr result (32 < length (pieces.old.items ++ model.piece piece.start piece.end)) }
    ensures full { OnErr result (pieces.new.items ≡ take 32 (pieces.old.items ++ model.piece piece.start piece.end)) }
{
    if piece.is_empty() {
        return Ok(());
    }
    pieces.try_push(piece).map_err(|_| Refusal::TooManyPieces)
}

// The frame, or the first one past the reserved area that holds it.
#[tactic(auto, unfolding(model::specs::Carving::past))]
fn past(reserved: FrameRange, frame: u64) -> u64
    requires { reserved.end ≤ range.top }
    ensures { result ≡ model.past reserved frame }
{
    if reserved.start <= frame && frame <= reserved.end {
        return reserved.end + 1;
    }
    frame
}

// The pieces of an area that are not reserved: those above before those below. Where they are more than 32 it is refused, and the first 32 are in the list.
// The reserved areas and the pieces are lent, since there may be 33 calls at a time, one in another.
#[tactic(auto, using(crate::proofs::Turns::turn_start, crate::proofs::Turns::area_low, crate::proofs::Turns::starts_above, crate::proofs::Turns::part_smaller, crate::proofs::Turns::part_many, crate::proofs::Turns::part_first, crate::proofs::Turns::stop_first, crate::proofs::Turns::end_first, crate::proofs::Turns::carved_stop, crate::proofs::Turns::carved_end))]
pub fn check_and_add_free_region(
    reserved: &[FrameRange],
    area: FrameRange,
    pieces: &mut RangeList,
) -> Result<(), Refusal>
    requires { Carvable reserved.now }
    ensures ok { OnOk result (pieces.new.items ≡ pieces.old.items ++ model.pieces reserved.now area) }
    ensures err { IfErr result (λ refusal. refusal ≡ TooManyPieces) }
    ensures many { OnErr result (32 < length (pieces.old.items ++ model.pieces reserved.now area)) }
    ensures full { OnErr result (pieces.new.items ≡ take 32 (pieces.old.items ++ model.pieces reserved.now area)) }
{
    let mut start = area.start;
    let mut end = area.end;
    for &next in reserved {
        start = past(next, start);
        if start <= next.start && next.start <= end {
            if end <= next.end {
                // The rest of the area is reserved.
                return push_piece(pieces, FrameRange::new(start, next.start - 1));
            }
            let above = FrameRange::new(next.end + 1, end);
            check_and_add_free_region(reserved, above, pieces)?;
            end = next.start - 1;
        }
    }
    push_piece(pieces, FrameRange::new(start, end))
}

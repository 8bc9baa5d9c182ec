// The areas that `framebench` collects for its boots: document 01, "The bench program".
#![tactic(auto)]

ghost use Rattle.std.specs.Prelude.{◌≡◌, ◌<◌, [], ◌∷◌, ◌++◌, OnOk, OnErr};
ghost use Rattle.bench_areas.specs.Areas.{Few, how_many};

mod area_list;

pub use area_list::Areas;
use model::{Area, Kind};

// "the 65th of a kind is `(bad)`"
#[derive(Clone, Copy)]
pub struct TooMany;

// Puts the area after those that are there, where fewer than 64 of its kind are there.
#[tactic(auto, using(crate::proofs::Collected::all_there, crate::proofs::Collected::has_place, crate::proofs::Collected::still_few))]
pub fn collect(areas: &mut Areas, area: Area) -> Result<(), TooMany>
    requires { Few areas.old.items }
    ensures under { OnOk result (how_many area.kind areas.old.items < 64) }
    ensures full { OnErr result (how_many area.kind areas.old.items ≡ 64) }
    ensures ok { OnOk result (areas.new.items ≡ areas.old.items ++ area ∷ []) }
    ensures err { OnErr result (areas.new ≡ areas.old) }
    ensures few { Few areas.new.items }
{
    if 64 <= how_many(areas.as_slice(), area.kind) {
        return Err(TooMany);
    }
    areas.push(area);
    Ok(())
}

fn how_many(areas: &[Area], kind: Kind) -> usize
    ensures { result ≡ how_many kind areas.now }
{
    areas.iter().filter(|area| area.kind == kind).count()
}

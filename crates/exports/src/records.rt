// A record to begin with.
ghost use Rattle.std.specs.Prelude.{◌≡◌};
ghost use Rattle.model.specs.Calls.{fresh_record};

use model::FrameAllocator;

// "A fresh record is in early form with every slot unused." An unused slot holds [1,0], so that a record of zeros is none.
#[unsafe(no_mangle)]
pub extern "C" fn likhmout_fresh() -> FrameAllocator
    ensures { result ≡ fresh_record }
{
    model::fresh()
}

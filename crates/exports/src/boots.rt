// Boot: document 01, "Boot". C hands over no enum, so that the areas are words, three to an area, the third of them the kind: 0 is
// general, any other number reserved.
ghost use Rattle.model.specs.Calls.{Gives, boot_call, boot_bytes_call};
ghost use Rattle.boot_areas.specs.Areas.{areas_in, byte_areas_in};
ghost use Rattle.rules.specs.Check.{answered_with};

use model::{Answer, FrameAllocator};

// Areas as first frame, last frame and kind. The workspace is read only in sorted form, and never written.
#[unsafe(no_mangle)]
pub extern "C" fn likhmout_init(a: &mut FrameAllocator, areas: &[u64], words: &[u64]) -> Answer
    ensures { Gives (boot_call (areas_in areas.now)) a.old words.now (answered_with result a.new) words.now }
{
    boot::init(a, areas, words)
}

// Areas as address, size in bytes and kind.
#[unsafe(no_mangle)]
pub extern "C" fn likhmout_init_from_bytes(
    a: &mut FrameAllocator,
    areas: &[u64],
    words: &[u64],
) -> Answer
    ensures { Gives (boot_bytes_call (byte_areas_in areas.now)) a.old words.now (answered_with result a.new) words.now }
{
    boot::init_from_bytes(a, areas, words)
}

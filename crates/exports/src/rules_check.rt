// The test of a record and its workspace: the one whose number a call of the allocator answers before any other, but for the length of
// the held list's buffer.
ghost use Rattle.std.specs.Prelude.{◌≡◌};
ghost use Rattle.rules.specs.Check.{checked};

use model::FrameAllocator;

// 0 where the record and its workspace keep the rules, 3 or 11 where they do not.
#[unsafe(no_mangle)]
pub extern "C" fn likhmout_check(a: &FrameAllocator, words: &[u64]) -> u64
    ensures { result ≡ checked a.now words.now }
{
    match rules::check(a, words) {
        Ok(()) => 0,
        Err(refusal) => refusal.number(),
    }
}

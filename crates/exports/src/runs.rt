// A list of calls, run in place: docs/RUN.md.
ghost use Rattle.std.specs.Prelude.{◌≡◌};
ghost use Rattle.exports.specs.Runs.{counts_of, RunsInPlace};

use model::FrameAllocator;
use run::{Ending, RunEnd};

// What a run hands back: how many calls were made, and why it ended. 0: every call was made; 1: the next call is damaged; 2: the
// answers' buffer has no room for the next call.
#[repr(C)]
#[derive(Clone, Copy)]
pub struct RunCounts {
    pub made: usize,
    pub end: u64,
}

#[unsafe(no_mangle)]
pub extern "C" fn likhmout_run(
    a: &mut FrameAllocator,
    words: &mut [u64],
    calls: &[u64],
    areas: &[u64],
    answers: &mut [u64],
    held: &mut [u64],
) -> RunCounts
    ensures { RunsInPlace areas.now calls.now a.old words.old answers.old held.old result a.new words.new answers.new held.new }
{
    RunCounts::from(run::run(a, words, calls, areas, answers, held))
}

impl From<Ending> for RunCounts {
    ghost from_gives = { λ ending counts. counts ≡ counts_of ending };

    fn from(ending: Ending) -> RunCounts {
        let made = ending.made;
        match ending.end {
            RunEnd::Done => RunCounts { made, end: 0 },
            RunEnd::Damaged => RunCounts { made, end: 1 },
            RunEnd::NoRoom => RunCounts { made, end: 2 },
        }
    }
}

// The held list's runs: document 01, "**held list**, the maximal runs of general frames not free, as pairs of words"; document 02, One: "Give
// the runs in ascending order of first frame."
#![tactic(auto)]

ghost use Rattle.std.specs.Prelude.{◌≡◌, true, ◌+◌, ◌*◌, ◌≤◌, length};
ghost use Rattle.model.specs.Rules.{tidy};
ghost use Rattle.tables.specs.Slots.{slots};
ghost use Rattle.query_held.specs.Runs.{two_tables, HeldWritten, next_start, touches, put_count, put_words};

use std::ops::Range;
use tables::Table;

// The runs go to the beginning of the buffer, ascending. That it has 2,048 words is a clause here and in `query_core`: it may have more, and every
// definition speaks of all of them. One walk over both tables: at each turn a region or a free chunk is done with.
#[tactic(auto, using(tables::proofs::Sums::tidy_pair, crate::proofs::Walk::walk_length))]
pub fn write_runs(regions: Table, chunks: Table, buffer: &mut [u64]) -> usize
    requires buffer_len { 2048 ≤ length buffer.old }
    requires regions_value { tidy true (slots regions) ≡ true }
    requires chunks_value { tidy true (slots chunks) ≡ true }
    ensures { HeldWritten (two_tables (slots regions.entry) (slots chunks.entry)) result buffer.old buffer.new }
{
    let mut runs = 0;
    let mut i = 0;
    let mut j = 0;
    // The held frames below `from` are in the buffer; the regions before i and the chunks before j end below it.
    let mut from: u64 = 0;
    // Each turn moves one of two indices, so neither is a `for`'s.
    while i < regions.len {
        let first = from.max(regions.words[2 * i]);
        let last = regions.words[2 * i + 1];
        match next_start(chunks, j) {
            Some(chunk) if chunk <= last => {
                runs = put_frames(buffer, runs, first..chunk);
                from = from.max(chunks.words[2 * j + 1] + 1);
                j += 1;
            }
            _ => {
                runs = put_frames(buffer, runs, first..last + 1);
                from = from.max(last + 1);
                i += 1;
            }
        }
    }
    runs
}

// The first frame of the chunk at j, where there is one.
#[tactic(auto, unfolding(crate::specs::Runs::next_start))]
fn next_start(chunks: Table, j: usize) -> Option<u64>
    ensures { result ≡ next_start chunks.entry.len chunks.entry.words.now j }
{
    if j < chunks.len {
        return Some(chunks.words[2 * j]);
    }
    None
}

// The frames are held: they join the last run where they touch it, else they are a run. The runs are counted beside the buffer, which is the
// caller's: C lends it.
#[tactic(auto, unfolding(crate::specs::Runs::put_count, crate::specs::Runs::put_words, crate::specs::Runs::touches))]
fn put_frames(buffer: &mut [u64], runs: usize, frames: Range<u64>) -> usize
    requires { 2 * runs + 2 ≤ length buffer.old }
    ensures { (result ≡ put_count runs frames.start frames.end buffer.old) × (buffer.new ≡ put_words runs frames.start frames.end buffer.old) }
{
    if frames.is_empty() {
        return runs;
    }
    if touches_last(buffer, runs, frames.start) {
        buffer[2 * runs - 1] = frames.end - 1;
        return runs;
    }
    buffer[2 * runs] = frames.start;
    buffer[2 * runs + 1] = frames.end - 1;
    runs + 1
}

// Whether the last run ends just below the frame.
#[tactic(auto, unfolding(crate::specs::Runs::touches))]
fn touches_last(buffer: &[u64], runs: usize, frame: u64) -> bool
    requires { 2 * runs ≤ length buffer.now }
    ensures { result ≡ touches runs frame buffer.now }
{
    runs != 0 && frame != 0 && buffer[2 * runs - 1] == frame - 1
}

// What a line of `framebench` does and prints: document 01, "The bench program".
#![tactic(auto)]

ghost use Rattle.std.specs.Prelude.{◌≡◌, ◌≤◌, []};
ghost use Rattle.rules.specs.Check.{RuledRecord};
ghost use Rattle.model.specs.Calls.{boot_call};
ghost use Rattle.model.specs.Store.{load};
ghost use Rattle.bench_areas.specs.Areas.{Few};
ghost use Rattle.bench_lines.specs.Commands.{command_of};
ghost use Rattle.lists.specs.Listed.{lists_of};
ghost use Rattle.bench_answers.specs.Answered.{answered, calling, four_lines};
ghost use Rattle.bench_answers.specs.Replies.{Ready, Replies, Gathers, First, state_of, reply_room};

use arrayvec::ArrayVec;
use bench_areas::{Areas, TooMany};
use bench_lines::Command;
use bench_lists::put_list;
use bench_texts::write_answer;
use lists::{FourLists, WhichList};
use model::{Area, EARLY_WORDS, FrameAllocator};
use requests::Request;

// What lives from line to line, beside the lent words.
#[derive(Clone, Copy)]
pub struct Bench {
    pub allocator: FrameAllocator,
    pub areas: Areas,
}

impl Bench {
    // Before the first line.
    pub fn begin() -> Bench
        ensures { First result }
    {
        Bench {
            allocator: model::fresh(),
            areas: Areas::new(),
        }
    }

    // Leaves in `out`, which has room for any reply, what the line prints: no heap, so no `Vec` of it.
    pub fn answer<const N: usize>(
        &mut self,
        line: &[u8],
        out: &mut ArrayVec<u8, N>,
        words: &mut [u64],
    )
        requires ready { Ready self.old words.old }
        requires room { reply_room ≤ N }
        ensures { Replies (answered (command_of line.now) (state_of self.old words.old)) self.new out.new.items words.new }
    {
        out.clear();
        let Some(command) = bench_lines::read_command(line) else {
            return bench_texts::put_text(out, b"(bad)\n");
        };
        match command {
            Command::Collect(area) => self.collect(out, area),
            Command::Boot => self.boot(out, words),
            Command::Sort => write_answer(
                out,
                sort::convert_frame_allocator_to_heap_based(&mut self.allocator, words),
            ),
            Command::Count(num_frames) => write_answer(
                out,
                calls::allocate(&mut self.allocator, words, Request::Frames { num_frames }),
            ),
            Command::At(frame, num_frames) => write_answer(
                out,
                calls::allocate(
                    &mut self.allocator,
                    words,
                    Request::FramesAt { frame, num_frames },
                ),
            ),
            Command::Give(range) => write_answer(
                out,
                calls::return_frames(&mut self.allocator, words, range),
            ),
            Command::Lists => self.list(out, words),
        }
    }

    // "Collecting prints nothing".
    fn collect<const N: usize>(&mut self, out: &mut ArrayVec<u8, N>, area: Area)
        requires empty { out.old.items ≡ [] }
        requires few { Few self.old.areas.items }
        requires room { reply_room ≤ N }
        ensures { Gathers area self.old self.new out.new.items }
    {
        match bench_areas::collect(&mut self.areas, area) {
            Ok(()) => {}
            Err(TooMany) => bench_texts::put_text(out, b"(bad)\n"),
        }
    }

    // "Collected areas stay after a boot".
    fn boot<const N: usize>(&mut self, out: &mut ArrayVec<u8, N>, words: &[u64])
        requires empty { out.old.items ≡ [] }
        requires ready { Ready self.old words.now }
        requires room { reply_room ≤ N }
        ensures { Replies (calling (boot_call self.old.areas.items) (state_of self.old words.now)) self.new out.new.items words.now }
    {
        let answer = boot::boot_map(&mut self.allocator, &self.areas.as_slice(), words);
        write_answer(out, answer);
    }

    fn list<const N: usize>(&self, out: &mut ArrayVec<u8, N>, words: &[u64])
        requires ruled { RuledRecord self.now.allocator words.now }
        requires empty { out.old.items ≡ [] }
        requires room { reply_room ≤ N }
        ensures { out.new.items ≡ four_lines (load self.now.allocator words.now) }
    {
        let mut slots = [0u64; EARLY_WORDS];
        let h = lists::take_apart(&self.allocator, &mut slots);
        put_lists(out, lists::lists_of(h, &slots, words));
    }
}

// "`(list)` prints the four lists". Four calls: the clause joins four lines, which a loop says no plainer.
fn put_lists<const N: usize>(out: &mut ArrayVec<u8, N>, lists: FourLists)
    requires empty { out.old.items ≡ [] }
    requires room { reply_room ≤ N }
    ensures { out.new.items ≡ four_lines (lists_of lists.entry) }
{
    put_list(out, lists, WhichList::GeneralFree);
    put_list(out, lists, WhichList::ReservedFree);
    put_list(out, lists, WhichList::GeneralRegions);
    put_list(out, lists, WhichList::ReservedRegions);
}

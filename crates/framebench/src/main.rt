// Document 01's bench program. It reads bracket forms from standard input, one a line, and answers each line as it comes:
//
//   (free S E)        collects a general area, 64 at most; prints nothing
//   (reserved S E)    collects a reserved area, 64 at most; prints nothing
//   (boot)            boots from the areas collected so far, which stay
//   (sort)            sorts
//   (count N)         requests N frames
//   (at S N)          requests N frames from frame S on
//   (give S E)        returns the frames from S to E
//   (list)            prints the four lists
//
// A line above 128 bytes, and any other line, prints `(bad)`, and the next line is answered. A last line may lack its line end.
#![tactic(auto)]

ghost use Rattle.std.specs.Prelude.{◌≡◌, ◌≤◌, [], length};
ghost use Rattle.io.specs.Counts.{IsPrefixLen};
ghost use Rattle.bench_lines.specs.Commands.{command_of};
ghost use Rattle.bench_answers.specs.Answered.{answered};
ghost use Rattle.bench_answers.specs.Replies.{Ready, Replies, state_of};
ghost use Rattle.framebench.specs.Reached.{ReadyAt, AnswersLines};

use bench_answers::Bench;
use bench_lines::Held;
use bench_texts::Out;
use model::WORKSPACE_WORDS;
use std::io::Read;

// Standard output.
const STDOUT_FILENO: i32 = 1;

// What lives as long as the program: what is held of a line, the text of an answer, and the allocator's words.
#[derive(Drop)]
struct Buffers {
    line: Held,
    out: Out,
    words: [u64; WORKSPACE_WORDS],
}

fn main(rt: HostRuntime) {
    let mut chunk = [0u8; 4096];
    let mut buffers = Buffers {
        line: Held::new(),
        out: Out::new(),
        words: [0; WORKSPACE_WORDS],
    };
    run(&rt, &mut chunk, &mut buffers);
}

// A proved loop has to end, and nothing says that input does: so it has a bound that no run comes to. That the words are long enough is a clause: a
// reference to a struct tells no length of its arrays.
fn run(rt: &HostRuntime, chunk: &mut [u8], buffers: &mut Buffers)
    requires { (buffers.old.line.items ≡ []) × (4096 ≤ length buffers.old.words) }
{
    let mut bench = Bench::begin();
    for _ in 0..u64::MAX {
        let n = read_some(rt, chunk);
        if n == 0 {
            break;
        }
        answer_lines(&mut bench, &chunk[..n], buffers);
    }
    if !buffers.line.is_empty() {
        answer_line(&mut bench, buffers);
    }
}

// Waits for input, and takes what has come: a line is answered before the next one is typed. 0 at the end, or where reading fails.
fn read_some(rt: &HostRuntime, chunk: &mut [u8]) -> usize
    ensures { IsPrefixLen result chunk.new }
{
    rt.stdin().read(chunk).unwrap_or(0)
}

// Answers each line that ends in the text, the first with the bytes held before, and holds what follows the last.
fn answer_lines(bench: &mut Bench, text: &[u8], buffers: &mut Buffers)
    requires { ReadyAt bench.old buffers.old.line.items buffers.old.words }
    ensures ready_at { ReadyAt bench.new buffers.new.line.items buffers.new.words }
    ensures answers_lines { AnswersLines text.now bench.old buffers.old.line.items buffers.old.words bench.new buffers.new.line.items buffers.new.words }
{
    for part in text.split_inclusive(|b| *b == b'\n') {
        if let Some(line) = part.strip_suffix(b"\n") {
            bench_lines::hold(&mut buffers.line, line);
            answer_line(bench, buffers);
        } else {
            bench_lines::hold(&mut buffers.line, part);
        }
    }
}

// Answers the line that is held, and writes what it prints before the next one is looked at.
fn answer_line(bench: &mut Bench, buffers: &mut Buffers)
    requires { Ready bench.old buffers.old.words }
    ensures none_held { buffers.new.line.items ≡ [] }
    ensures replies { Replies (answered (command_of buffers.old.line.items) (state_of bench.old buffers.old.words)) bench.new buffers.new.out.items buffers.new.words }
{
    let line = buffers.line.as_slice();
    bench.answer(line, &mut buffers.out, &mut buffers.words);
    // By the kit's `io`: std's writer would be lent from `main` to here, and its `Result` dropped, as the next line is answered anyway.
    io::write_all(STDOUT_FILENO, buffers.out.as_slice());
    buffers.line.clear();
}

// The texts that `framebench` writes, each put after what is there: document 01, "The bench program".
#![tactic(auto)]

ghost use Rattle.std.specs.Prelude.{◌≡◌, ◌+◌, ◌≤◌, ◌++◌, length};
ghost use Rattle.bench_texts.specs.Texts.{decimal_text, range_text, refusal_line, answer_line};

use arrayvec::ArrayVec;
use memory_structs::FrameRange;
use model::Answer;

// What is printed for one line: four lists at most, a line each, with 17 bytes at most for the name, 44 for each of 512 entries, and 2 for
// the end. The calls below take a list of any capacity.
pub type Out = ArrayVec<u8, 90188>;

// Puts the text after what is there.
pub fn put_text<const N: usize>(out: &mut ArrayVec<u8, N>, text: &[u8])
    requires { length out.old.items + length text.now ≤ N }
    ensures { out.new.items ≡ out.old.items ++ text.now }
{
    // There is room, so that this does not fail.
    let _ = out.try_extend_from_slice(text);
}

// The number in decimal: 20 digits at most. Not by `write!` to a `Cursor`: its `Result` could not fail here, and would be dropped.
pub fn put_number<const N: usize>(out: &mut ArrayVec<u8, N>, n: u64)
    requires { length out.old.items + 20 ≤ N }
    ensures { out.new.items ≡ out.old.items ++ decimal_text n }
{
    let mut digits = [0u8; 20];
    let len = io::decimal(n, &mut digits);
    put_text(out, &digits[..len]);
}

// The first and the last frame, between two texts.
pub fn put_range<const N: usize>(
    out: &mut ArrayVec<u8, N>,
    opening: &[u8],
    r: FrameRange,
    closing: &[u8],
)
    requires { length out.old.items + length opening.now + length closing.now + 41 ≤ N }
    ensures { out.new.items ≡ out.old.items ++ range_text opening.now r closing.now }
{
    put_text(out, opening);
    put_number(out, r.start);
    put_text(out, b" ");
    put_number(out, r.end);
    put_text(out, closing);
}

// The line that a call prints: "`(done)`, `(grant S E)` or `(no N)` with the refusal".
#[tactic(auto, unfolding(crate::specs::Texts::answer_line))]
pub fn write_answer<const N: usize>(out: &mut ArrayVec<u8, N>, answer: Answer)
    requires { length out.old.items + 64 ≤ N }
    ensures { out.new.items ≡ out.old.items ++ answer_line answer }
{
    let range = answer.range;
    match answer.number {
        0 if range.is_empty() => put_text(out, b"(done)\n"),
        0 => put_range(out, b"(grant ", range, b")\n"),
        number => write_refusal(out, number),
    }
}

#[tactic(auto, unfolding(crate::specs::Texts::refusal_line))]
fn write_refusal<const N: usize>(out: &mut ArrayVec<u8, N>, number: u64)
    requires { length out.old.items + 64 ≤ N }
    ensures { out.new.items ≡ out.old.items ++ refusal_line number }
{
    put_text(out, b"(no ");
    put_number(out, number);
    put_text(out, b")\n");
}

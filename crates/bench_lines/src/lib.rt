// The lines that `framebench` reads, and the commands that they are: document 01, "The bench program".
#![tactic(auto)]

ghost use Rattle.std.specs.Prelude.{◌≡◌, ◌++◌, take};
ghost use Rattle.lines.specs.Words.{words_of_line};
ghost use Rattle.bench_lines.specs.Commands as command;

use arrayvec::ArrayVec;
use memory_structs::FrameRange;
use model::{Area, Kind};

// What a line asks for. `Count` and `At` hold their numbers and no `Request`: its crate stands above the tables, which no reader of lines needs.
#[derive(Clone, Copy)]
pub enum Command {
    Collect(Area),
    Boot,
    Sort,
    Count(u64),
    At(u64, u64),
    Give(FrameRange),
    Lists,
}

// What is held of a line (`held`): with a byte more than a line may have, a line above 128 is told from the others, however long it is.
pub type Held = ArrayVec<u8, 129>;

// Takes more bytes of a line. What has no room is left out.
pub fn hold<const N: usize>(line: &mut ArrayVec<u8, N>, more: &[u8])
    ensures { line.new.items ≡ take N (line.old.items ++ more.now) }
{
    let taken = more.len().min(line.remaining_capacity());
    // As many as have room, so that this does not fail.
    let _ = line.try_extend_from_slice(&more[..taken]);
}

// None for any line that document 01 does not name.
#[tactic(auto, using(crate::proofs::Reading::too_long, crate::proofs::Reading::too_short, crate::proofs::Reading::not_opened, crate::proofs::Reading::not_closed, crate::proofs::Reading::form))]
pub fn read_command(line: &[u8]) -> Option<Command>
    ensures { result ≡ command.command_of line.now }
{
    match line {
        _ if 128 < line.len() => None,
        [b'(', text @ .., b')'] => read_form(text),
        _ => None,
    }
}

// What stands between the brackets: a name, alone or with numbers.
fn read_form(text: &[u8]) -> Option<Command>
    ensures { result ≡ command.command_in (words_of_line text.now) }
{
    let mut words = text.split(|b| *b == b' ');
    let name = words.next()?;
    match (words.next(), words.next(), words.next()) {
        (None, _, _) => alone(name),
        (Some(n), None, _) => one_number(name, lines::decimal(n)?),
        (Some(a), Some(b), None) => two_numbers(name, lines::decimal(a)?, lines::decimal(b)?),
        _ => None,
    }
}

#[tactic(auto, unfolding(crate::specs::Commands::alone))]
fn alone(name: &[u8]) -> Option<Command>
    ensures { result ≡ command.alone name.now }
{
    match name {
        b"boot" => Some(Command::Boot),
        b"sort" => Some(Command::Sort),
        b"list" => Some(Command::Lists),
        _ => None,
    }
}

#[tactic(auto, unfolding(crate::specs::Commands::one_number))]
fn one_number(name: &[u8], n: u64) -> Option<Command>
    ensures { result ≡ command.one_number name.now n }
{
    match name {
        b"count" => Some(Command::Count(n)),
        _ => None,
    }
}

#[tactic(auto, unfolding(crate::specs::Commands::two_numbers))]
fn two_numbers(name: &[u8], a: u64, b: u64) -> Option<Command>
    ensures { result ≡ command.two_numbers name.now a b }
{
    match name {
        b"free" => Some(Command::Collect(Area {
            start: a,
            end: b,
            kind: Kind::General,
        })),
        b"reserved" => Some(Command::Collect(Area {
            start: a,
            end: b,
            kind: Kind::Reserved,
        })),
        b"at" => Some(Command::At(a, b)),
        b"give" => Some(Command::Give(FrameRange::new(a, b))),
        _ => None,
    }
}

// What a line asks for: see `main`.
use memory_structs::FrameRange;
use model::Kind;
use requests::Request;

// A line that is known.
#[derive(Clone, Copy)]
pub enum Line<'a> {
    Fresh,
    Lists,
    Call(Way, Call<'a>),
}

// What a call is made with: the record and the workspace as they are; or a short workspace, a broken record, a broken workspace.
#[derive(Clone, Copy)]
pub enum Way {
    Plain,
    Short,
    BrokenSlot,
    BrokenWord,
}

#[derive(Clone, Copy)]
pub enum Call<'a> {
    Boot(&'a [u64]),
    BootBytes(&'a [u64]),
    Sort,
    Allocate(Request),
    Return(FrameRange),
    KindOf(FrameRange),
    Total(Kind),
    Held,
    HeldShort,
}

// None for a line that is no call.
pub fn read_line<'a>(line: &[u8], numbers: &'a mut [u64]) -> Option<Line<'a>> {
    match line {
        b"fresh" => Some(Line::Fresh),
        b"lists" => Some(Line::Lists),
        _ => {
            let (way, call) = way_of(line);
            Some(Line::Call(way, read_call(call, numbers)?))
        }
    }
}

// The way that the line's first word names, and the call after it; a line that begins with its call is plain.
fn way_of(line: &[u8]) -> (Way, &[u8]) {
    if let Some(call) = line.strip_prefix(b"short ") {
        (Way::Short, call)
    } else if let Some(call) = line.strip_prefix(b"broken_slot ") {
        (Way::BrokenSlot, call)
    } else if let Some(call) = line.strip_prefix(b"broken_word ") {
        (Way::BrokenWord, call)
    } else {
        (Way::Plain, line)
    }
}

fn read_call<'a>(call: &[u8], numbers: &'a mut [u64]) -> Option<Call<'a>> {
    match call {
        b"sort" => Some(Call::Sort),
        b"total general" => Some(Call::Total(Kind::General)),
        b"total reserved" => Some(Call::Total(Kind::Reserved)),
        b"held" => Some(Call::Held),
        b"held_short" => Some(Call::HeldShort),
        _ => with_numbers(call, numbers),
    }
}

// A name, and the numbers after it.
fn with_numbers<'a>(call: &[u8], numbers: &'a mut [u64]) -> Option<Call<'a>> {
    let name_end = call.iter().position(|b| *b == b' ').unwrap_or(call.len());
    let (name, words) = call.split_at(name_end);
    match name {
        b"boot" => Some(Call::Boot(areas(words, numbers)?)),
        b"boot_bytes" => Some(Call::BootBytes(areas(words, numbers)?)),
        _ => {
            let len = lines::read_numbers(words, numbers).ok()?;
            of_numbers(name, &numbers[..len])
        }
    }
}

fn areas<'a>(words: &[u8], numbers: &'a mut [u64]) -> Option<&'a [u64]> {
    let len = lines::read_areas(words, numbers).ok()?;
    Some(&numbers[..len])
}

fn of_numbers<'a>(name: &[u8], numbers: &[u64]) -> Option<Call<'a>> {
    match *numbers {
        [n] => of_one(name, n),
        [first, second] => of_two(name, first, second),
        _ => None,
    }
}

fn of_one<'a>(name: &[u8], n: u64) -> Option<Call<'a>> {
    match name {
        b"count" => Some(Call::Allocate(Request::Frames { num_frames: n })),
        b"count_bytes" => Some(Call::Allocate(Request::Bytes { num_bytes: n })),
        _ => None,
    }
}

fn of_two<'a>(name: &[u8], start: u64, n: u64) -> Option<Call<'a>> {
    match name {
        b"at" => Some(Call::Allocate(Request::FramesAt {
            frame: start,
            num_frames: n,
        })),
        b"at_bytes" => Some(Call::Allocate(Request::BytesAt {
            address: start,
            num_bytes: n,
        })),
        b"general_at" => Some(Call::Allocate(Request::GeneralFramesAt {
            frame: start,
            num_frames: n,
        })),
        b"return" => Some(Call::Return(FrameRange::new(start, n))),
        b"kind" => Some(Call::KindOf(FrameRange::new(start, n))),
        _ => None,
    }
}

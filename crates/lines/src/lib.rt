// The words of a line of text, parted by one space: numbers in decimal, below 2^64, and kinds of areas, read into lent words. For the
// programs that read lines, with the output that they write to. Lent words and no `Vec`: reading cannot fail for want of memory, and a clause names each word.
#![tactic(auto)]

ghost use Rattle.std.specs.Prelude.{◌≡◌, ◌≤◌, length, IfOk, IfErr};
ghost use Rattle.lines.specs.Words as words;
ghost use Rattle.lines.specs.declared.Layout.TheVariants.{Numbers, Areas};

mod output;

use model::Kind;
pub use output::Output;

// What the words that follow a name are: numbers, or areas of two numbers and a kind each. An enum and no trait: in a function with a type
// parameter the toolchain refuses its own part of the proof of a `for` over `split`.
#[derive(Clone, Copy)]
pub enum Layout {
    Numbers,
    Areas,
}

// Not every word was a number that had room: so many numbers were put all the same.
#[derive(Clone, Copy)]
pub struct Unread {
    pub put: usize,
}

// Reads the numbers that follow a name: how many they are, where each word is one and has room. Their count, and no slice of them: a lent
// buffer that goes into the result has no value after the call that a clause could name.
pub fn read_numbers(text: &[u8], numbers: &mut [u64]) -> Result<usize, Unread>
    ensures reads { words.Reads (words.read_after Numbers text.now numbers.old) result numbers.new }
    ensures len_in_bounds { IfOk result (λ len. len ≤ length numbers.new) }
    ensures put_in_bounds { IfErr result (λ unread. unread.put ≤ length numbers.new) }
{
    read_words(text, Layout::Numbers, numbers)
}

// Reads the areas that follow a name, the last of them whole: how many numbers they are, where each word is one and has room.
pub fn read_areas(text: &[u8], numbers: &mut [u64]) -> Result<usize, Unread>
    ensures reads { words.Reads (words.whole_areas (words.read_after Areas text.now numbers.old)) result numbers.new }
    ensures len_in_bounds { IfOk result (λ len. len ≤ length numbers.new) }
    ensures put_in_bounds { IfErr result (λ unread. unread.put ≤ length numbers.new) }
{
    let len = read_words(text, Layout::Areas, numbers)?;
    if len % 3 != 0 {
        return Err(Unread { put: len });
    }
    Ok(len)
}

// Reads the words that follow a name.
pub fn read_words(text: &[u8], layout: Layout, numbers: &mut [u64]) -> Result<usize, Unread>
    ensures reads { words.Reads (words.read_after layout text.now numbers.old) result numbers.new }
    ensures len_in_bounds { IfOk result (λ len. len ≤ length numbers.new) }
    ensures put_in_bounds { IfErr result (λ unread. unread.put ≤ length numbers.new) }
{
    let [_space, words @ ..] = text else {
        return Ok(0);
    };
    let mut len = 0;
    // Both, and no early end: the numbers after a word that stands for none are put too, as the clause on the lent words says.
    let mut valid = true;
    for word in words.split(|b| *b == b' ') {
        match number(layout, len, word) {
            Some(n) if len < numbers.len() => {
                numbers[len] = n;
                len += 1;
            }
            _ => valid = false,
        }
    }
    valid.then_some(len).ok_or(Unread { put: len })
}

// The number of a word by its place among those of its line: the third word of an area is its kind.
#[tactic(auto, unfolding(crate::specs::Words::number_at, crate::specs::Words::word_of_area))]
fn number(layout: Layout, place: usize, word: &[u8]) -> Option<u64>
    ensures { result ≡ words.number_at layout place word.now }
{
    match layout {
        Layout::Areas if place % 3 == 2 => Some(u64::from(kind(word)?)),
        _ => decimal(word),
    }
}

#[tactic(auto, unfolding(crate::specs::Words::kind_named))]
fn kind(text: &[u8]) -> Option<Kind>
    ensures { result ≡ words.kind_named text.now }
{
    match text {
        b"general" => Some(Kind::General),
        b"reserved" => Some(Kind::Reserved),
        _ => None,
    }
}

// No sign, which `parse` would take.
#[tactic(auto, using(crate::proofs::Digits::signed))]
pub fn decimal(word: &[u8]) -> Option<u64>
    ensures { result ≡ words.decimal_of word.now }
{
    match word {
        [first, ..] if *first != b'+' => str::from_utf8(word).ok()?.parse().ok(),
        _ => None,
    }
}

// Replays the calls of a fixed list on one record and one workspace, which live through the whole text. A line of standard input is
//
//   fresh              begins again: a fresh record, and a workspace of 4,096 words, each 1
//   boot AREAS         boots; an area is its first and last frame and its kind, `general` or `reserved`
//   boot_bytes AREAS   boots; an area is its address, its bytes and its kind
//   sort               sorts
//   count N            requests N frames
//   count_bytes N      requests N bytes
//   at S N             requests N frames from frame S on
//   at_bytes A N       requests N bytes from address A on
//   general_at S N     requests N general frames from frame S on
//   return S E         returns the frames from S to E
//   kind S E           asks for the kind of the frames from S to E
//   total general      asks how many general frames are free
//   total reserved     asks how many reserved frames are free
//   held               asks for the held list, in a buffer of 2,048 words
//   held_short         the same, in a buffer of 2,047 words
//   lists              calls nothing, and shows the record
//
// One of these may stand before a call:
//
//   short              calls with a workspace of 4,095 words
//   broken_slot        calls with a copy of the record that breaks a rule: a slot is used and has no frame
//   broken_word        calls with another last word, which breaks a rule in sorted form: an unused word is not 0
//
// A line of standard output is what the call answers, `done`, `granted` and the range, `counted` and the count, after which the held list
// has its runs, or `refused` and the number; the form and the four lists; or `(bad)`. The file `stdout` holds what document 01 and the Rust answer; oracle/README.md says how it was made.
#![tactic(auto)]

mod asked;
mod broken;
mod lines_called;
mod reading;
mod shown;

use lines::Output;
use model::WORKSPACE_WORDS;

// Standard input.
const STDIN_FILENO: i32 = 0;

// Reads up to 262,144 bytes of text, and answers each line; the last may lack its line end. No heap. A read that fails ends the text, and a write that
// fails is not told (`Output`).
fn main() {
    let mut text = [0; 262144];
    let n = io::read_full(STDIN_FILENO, &mut text);
    let mut out = Output;
    // Room for 40 areas, so that 33 reserved ones or 33 pieces fit.
    let mut numbers = [0; 120];
    let mut words = [1; WORKSPACE_WORDS];
    let mut a = model::fresh();
    for part in text[..n].split_inclusive(|b| *b == b'\n') {
        let line = part.strip_suffix(b"\n").unwrap_or(part);
        let _ = match reading::read_line(line, &mut numbers) {
            Some(line) => lines_called::answer(&mut out, &mut a, &mut words, line),
            None => lines_called::bad(&mut out),
        };
    }
}

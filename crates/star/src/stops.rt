// Runs up to one of some characters: the source's `run_end`, with which comments, strings, blobs and lines are read.
//
// Proved: the answer of each public function is what the definition gives, at any offset of any bytes.
// Assumed: nothing.
ghost use Rattle.std.specs.Prelude.{◌≡◌};
ghost use Rattle.definition.specs.Text.{star, after};
ghost use Rattle.star.specs.Beyond.{Beyond};
ghost use Rattle.star.specs.Stops.{goes_on, ascii_goes_on};
ghost use Rattle.star.specs.TestLaws.{small_goes_on, ascii_inside};

use crate::star_ascii;
use crate::tests::{AsciiTest, CharTest};
use chars::fixed::is_newline_char;
use definition::Sequence;
use match_lit::beyond_ascii_at;
use utf8::{sequence_at, sequence_in_place};

// A character that is neither `first` nor `second` nor a line's end.
#[derive(Clone, Copy)]
pub struct Inside {
    pub first: u8,
    pub second: u8,
}

impl AsciiTest for Inside {
    ghost test = { λ t. ascii_goes_on t.first t.second };

    ghost small = { λ t. small_goes_on t.first t.second };

    // All as a byte: by `passes_char` the loop of a line comment, whose stops are a line's end, compared with 10 twice, as a byte and as a
    // character.
    #[tactic(auto, unfolding(definition::specs::Chars::is_newline_char), using(lemmas::proofs::Cases::all_tests))]
    fn passes(self, b: u8) -> bool {
        b < 0x80 && b != self.first && b != self.second && b != b'\n' && b != b'\r'
    }
}

impl CharTest for Inside {
    ghost char_test = { λ t. goes_on t.first t.second };

    ghost agrees = { λ t. ascii_inside t.first t.second };

    fn passes_char(self, c: u32) -> bool {
        c != self.first as u32 && c != self.second as u32 && !is_newline_char(c)
    }
}

// Where the characters beyond ASCII end that stand at i and are inside a run, one after the other. A function by itself: what the
// decoder needs would else be moved to and fro in the loop over ASCII.
#[inline(never)]
fn inside_beyond(text: &[u8], inside: Inside, i: usize) -> usize
    ensures { Beyond (goes_on inside.first inside.second) text.now i result }
{
    let mut at = i;
    while beyond_ascii_at(text, at) {
        let Sequence::Char(c, width) = sequence_in_place(text, at) else {
            return at;
        };
        if !inside.passes_char(c) {
            return at;
        }
        at += width;
    }
    at
}

// The end of the run of characters from i that are neither a nor b nor a line's end: the ASCII by bytes, what is beyond it character by
// character. In place at each call, where a and b are known, so that the loop over ASCII asks for nothing twice.
#[inline(always)]
pub fn run_end(text: &[u8], a: u8, b: u8, i: usize) -> usize
    ensures { result ≡ star (goes_on a b) text.now i }
{
    let inside = Inside {
        first: a,
        second: b,
    };
    let mut j = star_ascii(text, inside, i);
    while beyond_ascii_at(text, j) {
        let k = inside_beyond(text, inside, j);
        if beyond_ascii_at(text, k) {
            return k;
        }
        j = star_ascii(text, inside, k);
    }
    j
}

// The offset after the character at i; i itself where none stands.
pub fn after(text: &[u8], i: usize) -> usize
    ensures { result ≡ after text.now i }
{
    let Sequence::Char(_, width) = sequence_at(text, i) else {
        return i;
    };
    i + width
}

// Runs of characters that pass a test, which the caller names: the module `tests` has a type for each test that the source
// passes to `star`, and each such type makes a loop of its own. What follows takes a test first by its bytes, and then by
// characters.
//
// Proved: the answer of each public function is what the definition gives, at any offset of any bytes. A run over a test
// that only ASCII passes goes by bytes, any other decodes where a byte isn't ASCII; both are the definition's `star` over
// characters.
// Assumed: nothing.
#![tactic(auto)]

pub mod stops; // stops.rt: runs up to one of some characters, and the offset after a character
pub mod tests; // tests.rt: the tests that a run goes by

ghost use Rattle.std.specs.Prelude.{◌≡◌, ltb, Some};
ghost use Rattle.definition.specs.Text.{byte_has, star};
ghost use Rattle.definition.specs.Matchers.{only, one, plus};

use crate::tests::{AsciiTest, CharTest};
use definition::Sequence;
use match_lit::beyond_ascii_at;
use utf8::sequence_at;

// A run from i to `end`, if that is one.
pub fn some_run(i: usize, end: usize) -> Option<usize>
    ensures { result ≡ only (ltb i end) (Some end) }
{
    (i < end).then_some(end)
}

// ---- by bytes

// A byte that passes stands at i.
#[tactic(auto, unfolding(definition::specs::Text::byte_has))]
pub fn passes_at<T: AsciiTest>(text: &[u8], test: T, i: usize) -> bool
    ensures { result ≡ byte_has (T.test test) text.now i }
{
    text.get(i).is_some_and(|&b| test.passes(b))
}

// The end of the run from i on.
pub fn star_ascii<T: AsciiTest>(text: &[u8], test: T, i: usize) -> usize
    ensures { result ≡ star (T.test test) text.now i }
{
    for j in i..text.len() {
        if !test.passes(text[j]) {
            return j;
        }
    }
    i.max(text.len())
}

#[tactic(auto, using(crate::proofs::RunLaws::plus_from))]
pub fn plus_ascii<T: AsciiTest>(text: &[u8], test: T, i: usize) -> Option<usize>
    ensures { result ≡ plus (T.test test) text.now i }
{
    some_run(i, star_ascii(text, test, i))
}

// ---- by characters: a byte of ASCII is one by itself, any other is decoded

// The end of a character that passes.
pub fn one_char<T: CharTest>(text: &[u8], test: T, i: usize) -> Option<usize>
    ensures { result ≡ one (T.char_test test) text.now i }
{
    let b = *text.get(i)?;
    if b < 0x80 {
        return test.passes(b).then_some(i + 1);
    }
    let Sequence::Char(c, width) = sequence_at(text, i) else {
        return None;
    };
    test.passes_char(c).then_some(i + width)
}

// The end of the run from i on, by one character after the other.
pub fn star_decoded<T: CharTest>(text: &[u8], test: T, i: usize) -> usize
    ensures { result ≡ star (T.char_test test) text.now i }
{
    let mut j = i;
    while let Some(k) = one_char(text, test, j) {
        j = k;
    }
    j
}

// The end of the run from i on. Nearly all of it is ASCII, and is passed by bytes; only what begins beyond ASCII is decoded.
pub fn star_chars<T: CharTest>(text: &[u8], test: T, i: usize) -> usize
    ensures { result ≡ star (T.char_test test) text.now i }
{
    let j = star_ascii(text, test, i);
    if beyond_ascii_at(text, j) {
        return star_decoded(text, test, j);
    }
    j
}

#[tactic(auto, using(crate::proofs::RunLaws::plus_from))]
pub fn plus_chars<T: CharTest>(text: &[u8], test: T, i: usize) -> Option<usize>
    ensures { result ≡ plus (T.char_test test) text.now i }
{
    some_run(i, star_chars(text, test, i))
}

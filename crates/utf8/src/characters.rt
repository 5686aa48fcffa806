// Reading a text: the byte at an offset, and the first offset where no legal UTF-8 sequence starts.
// Proved: each public function is the definition's function of the same name, at any bytes and any offset, so no caller
// owes anything.
// Assumed: nothing.
ghost use Rattle.std.specs.Prelude.{◌≡◌};
ghost use Rattle.definition.specs.Text.{byte, first_bad};

use crate::sequence_at;
use definition::Sequence;

// A byte below it is ASCII.
const ASCII_LIMIT: u8 = 0x80;

// The byte at i.
#[tactic(auto, unfolding(definition::specs::Text::byte), using(lemmas::proofs::Cases::tests))]
pub fn byte(text: &[u8], i: usize) -> Option<u8>
    ensures { result ≡ byte text.now i }
{
    text.get(i).copied()
}

// The first offset, from 0 by legal sequences, where none starts; the length where there is none. A byte below 80 is a
// character by itself, so a run of them is passed without the decoder. (The offset goes on by a character's width: no `for` does.)
pub fn first_bad(text: &[u8]) -> usize
    ensures { result ≡ first_bad text.now }
{
    let mut i = 0;
    while i < text.len() {
        if text[i] < ASCII_LIMIT {
            i += 1;
            continue;
        }
        let Sequence::Char(_, width) = sequence_at(text, i) else {
            return i;
        };
        i += width;
    }
    i
}

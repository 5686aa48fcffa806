// A place that is tried at an offset after others, the source's `try_`, and a word of a table that is tried likewise.
//
// Proved: each function is the definition's, `found`, and `keep` of what is found.
// Assumed: nothing.
ghost use Rattle.std.specs.Prelude.{◌≡◌};
ghost use Rattle.definition.specs.Matchers.{match_lit};
ghost use Rattle.definition.specs.Select.{keep, found};

use crate::{keep, nothing};
use definition::Choice;
use match_lit::match_lit;

// What a matcher's end is at a place.
pub fn found(i: usize, place: u32, m: Option<usize>) -> Choice
    ensures { result ≡ found i place 0 m }
{
    let Some(end) = m else {
        return nothing(i);
    };
    Choice {
        place,
        end,
        word: 0,
    }
}

// The source's `try_`, after other places.
pub fn try_place(best: Choice, i: usize, place: u32, m: Option<usize>) -> Choice
    ensures { result ≡ keep best (found i place 0 m) }
{
    keep(best, found(i, place, m))
}

// A word of a place, with its number in its table, tried after others.
pub fn try_word(
    best: Choice,
    text: &[u8],
    i: usize,
    place: u32,
    word: &[u8],
    number: usize,
) -> Choice
    ensures { result ≡ keep best (found i place number (match_lit text.now word.now i)) }
{
    let Some(end) = match_lit(text, word, i) else {
        return keep(best, nothing(i));
    };
    keep(
        best,
        Choice {
            place,
            end,
            word: number,
        },
    )
}

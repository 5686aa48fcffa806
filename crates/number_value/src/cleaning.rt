// What is left of a number without the letters of its prefixes and suffixes.
// Proved: `clean_number` answers the part that the definition's `clean_number` leaves, for numbers of any length.
// Assumed: nothing.
ghost use Rattle.std.specs.Prelude.{◌≡◌};
ghost use Rattle.definition.specs.Numbers.{strips};
ghost use Rattle.number_value.specs.CleaningContracts.{LeftStripped, RightStripped, Cleaned};

// The bytes of a text from one offset up to another.
#[derive(Clone, Copy)]
pub struct Part {
    pub from: usize,
    pub to: usize,
}

// A letter of the prefixes and suffixes of numbers.
#[tactic(auto, unfolding(definition::specs::Numbers::strips, definition::specs::Basics::mem_cp), using(lemmas::proofs::Cases::all_tests))]
fn strips(b: u8) -> bool
    ensures { result ≡ strips b }
{
    matches!(
        b,
        b'u' | b'z' | b'y' | b's' | b'l' | b'L' | b'U' | b'n' | b'I' | b'N'
    )
}

// Where the number begins, after such letters.
fn strip_left(lexeme: &[u8]) -> usize
    ensures { LeftStripped lexeme.now result }
{
    lexeme
        .iter()
        .position(|b| !strips(*b))
        .unwrap_or(lexeme.len())
}

// Where the number ends, in front of such letters.
fn strip_right(number: &[u8]) -> usize
    ensures { RightStripped number.now result }
{
    for to in (0..number.len()).rev() {
        if !strips(number[to]) {
            return to + 1;
        }
    }
    0
}

// The source's `clean_number`, as the part of the lexeme that it leaves.
pub fn clean_number(lexeme: &[u8]) -> Part
    ensures { Cleaned lexeme.now result }
{
    let from = strip_left(lexeme);
    let to = from + strip_right(&lexeme[from..]);
    Part { from, to }
}

// The place of a line at a column in characters, with its column in units.
ghost use Rattle.std.specs.Prelude.{◌≡◌};
ghost use Rattle.definition.specs.Utf16.{utf16};
ghost use Rattle.utf16_positions.specs.Places.{Begins, Tallied, place_at};
ghost use Rattle.utf16_positions.specs.Asks.{size_at, OnFrom, From, tally_at};

use crate::{LineStart, Place, Tally};
use definition::Sequence;
use utf8::sequence_at;

// The last code point that UTF-16 writes in one unit.
const LAST_OF_ONE_UNIT: u32 = 0xFFFF;

// A character's bytes and units; both are 0 where none stands, which adds nothing: an Option would be taken apart only to add 0.
#[derive(Clone, Copy)]
pub struct CharSize {
    pub bytes: usize,
    pub units: u32,
}

// How many units a character is.
fn units_of(c: u32) -> u32
    ensures { result ≡ utf16 c }
{
    if LAST_OF_ONE_UNIT < c {
        return 2;
    }
    1
}

// The size of the character at i. A byte below 80 is a character by itself, and most are: those are passed without the decoder.
fn size_at(text: &[u8], i: usize) -> CharSize
    ensures { result ≡ size_at utf16 text.now i }
{
    if i < text.len() {
        if text[i] < 0x80 {
            return CharSize { bytes: 1, units: 1 };
        }
    }
    match sequence_at(text, i) {
        Sequence::Char(c, width) => CharSize {
            bytes: width,
            units: units_of(c),
        },
        Sequence::Bad => CharSize { bytes: 0, units: 0 },
        Sequence::End => CharSize { bytes: 0, units: 0 },
    }
}

// The place at a column, from a place of the same line before it.
fn place_on(text: &[u8], from: Place, col: u32) -> Place
    requires { OnFrom text.now from }
    ensures { result ≡ place_at utf16 text.now from col }
{
    let mut off = from.off as usize;
    let mut units = from.units;
    for _ in from.col..col {
        let size = size_at(text, off);
        off += size.bytes;
        units += size.units;
    }
    Place {
        off: off as u32,
        col: from.col.max(col),
        units,
    }
}

// Where the count to a column begins: at the place that is known where it is one of the line and not past the column, else at the line's
// start.
fn count_from(known: Tally, line: LineStart, col: u32) -> Place
    ensures { From known line col result }
{
    let start = known.start;
    let place = known.place;
    if start == line {
        if place.col <= col {
            return place;
        }
    }
    Place {
        off: line.bol,
        col: line.column,
        units: line.units,
    }
}

// The line, and its place at a column.
pub fn tally_at(text: &[u8], known: Tally, line: LineStart, col: u32) -> Tally
    requires { Tallied text.now known × Begins text.now line }
    ensures { result ≡ tally_at text.now line col }
{
    let from = count_from(known, line, col);
    let place = place_on(text, from, col);
    Tally { start: line, place }
}

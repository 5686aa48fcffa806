// Records without a count. Most have no positions but a start and an end, both on the line whose place is known, with nothing but ASCII
// from there up to the end: a column is then as much further on in units as in characters. To pass those characters one by one takes
// three times as long as the test and the sums here: it is loops whose lengths the processor can't foresee.
ghost use Rattle.std.specs.Prelude.{true, ◌≡◌, length};
ghost use Rattle.definition.specs.Item.{record_size};
ghost use Rattle.utf16_positions.specs.Plain.{OnKnown, PlainHere, Plain, plain_place, Ahead, Short, PlainAgain};
ghost use Rattle.utf16_positions.specs.Places.{Tallied};

use crate::{LineStart, Place, Tally};
use position::ascii_runs::ascii_from;

// Whether a record has no positions but its start and its end, one after the other on the line whose place is known, and not before it.
fn on_known_line(here: LineStart, known: Tally, out: &[u32]) -> bool
    requires { length out.now ≡ record_size }
    ensures { result ≡ true → OnKnown here known out.now }
{
    let start = known.start;
    if start != here {
        return false;
    }
    if 1 < out[9] {
        return false;
    }
    if out[2] != here.line {
        return false;
    }
    if out[4] != here.line {
        return false;
    }
    if out[3] < known.place.col {
        return false;
    }
    out[3] <= out[5]
}

// Whether there is nothing but ASCII up to the end, too.
fn plain_here(text: &[u8], here: LineStart, known: Tally, out: &[u32]) -> bool
    requires { Tallied text.now known × (length out.now ≡ record_size) }
    ensures { result ≡ true → PlainHere text.now here known out.now }
{
    if !on_known_line(here, known, out) {
        return false;
    }
    let place = known.place;
    let from = place.off as usize;
    from + (out[5] - place.col) as usize <= ascii_from(text, from)
}

// Whether nothing is to be counted for a record.
pub fn is_plain(
    text: &[u8],
    here: LineStart,
    carried: Option<u32>,
    known: Tally,
    out: &[u32],
) -> bool
    requires { Tallied text.now known × (length out.now ≡ record_size) }
    ensures { result ≡ true → Plain text.now here carried known out.now }
{
    match carried {
        None => plain_here(text, here, known, out),
        Some(_) => false,
    }
}

// The place at a column, from one before it with nothing but ASCII between.
fn plain_place(from: Place, col: u32) -> Place
    requires { Ahead from col }
    ensures { result ≡ plain_place from col }
{
    let n = col - from.col;
    Place {
        off: from.off + n,
        col,
        units: from.units + n,
    }
}

// Counts such a record's positions again.
pub fn recount_plain(known: Tally, out: &mut [u32]) -> Tally
    requires { Short known out.old }
    ensures { PlainAgain known out.old result out.new }
{
    let line = known.start;
    let place = known.place;
    let start = plain_place(place, out[3]);
    let end = plain_place(place, out[5]);
    let start_line = out[2];
    let end_line = out[4];
    out[2] = start_line - 1;
    out[3] = start.units;
    out[4] = end_line - 1;
    out[5] = end.units;
    Tally {
        start: line,
        place: end,
    }
}

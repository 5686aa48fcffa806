// Positions in UTF-16 units (document 02, K2): a place of a line with its column in characters and in units, and the positions of a record
// counted again.
//
// Proved: from any place of the line that is known before it, the place at a column in characters has the column in units that the
// definition's column rule gives for the weight `utf16`; and a record's positions become the definition's second ones, while its other
// numbers stay. Assumed: nothing but what each function's `requires` says.
// Cost: a count goes on from the place that is known, so that a line's characters are read once over all of its items, and once more where
// an error ends the run, whose range's end is counted before its start; and most records need none (plain.rt).
#![tactic(auto)]

pub mod places; // places.rt: the place of a line at a column
pub mod plain; // plain.rt: records without a count

ghost use Rattle.std.specs.Prelude.{◌≡◌};
ghost use Rattle.utf16_positions.specs.Places.{line_at, second_by, begun_at, Recounts, Recounted};
ghost use Rattle.utf16_positions.specs.Asks.{Lines, Position, again, extra_again, Again};

use crate::places::tally_at;
use crate::plain::{is_plain, recount_plain};

// A line: its number, its first byte, and the column there in characters and in units.
#[derive(Clone, Copy, PartialEq)]
pub struct LineStart {
    pub line: u32,
    pub bol: u32,
    pub column: u32,
    pub units: u32,
}

// A place of a line: its byte, and its column in characters and in units.
#[derive(Clone, Copy)]
pub struct Place {
    pub off: u32,
    pub col: u32,
    pub units: u32,
}

// A line, and a place of it that is known.
#[derive(Clone, Copy)]
pub struct Tally {
    pub start: LineStart,
    pub place: Place,
}

// The line of a position, of the two that an item's positions are on.
fn line_at(here: LineStart, next: LineStart, line: u32) -> LineStart
    ensures { result ≡ line_at here next line }
{
    if line == here.line {
        return here;
    }
    next
}

// Counts a position again, whose two words are lent.
fn recount_position(
    text: &[u8],
    here: LineStart,
    next: LineStart,
    known: Tally,
    out: &mut [u32],
) -> Tally
    requires { Lines text.now here next known × Position out.old }
    ensures { Again text.now (again (second_by text.now here next)) out.old result out.new }
{
    let line = line_at(here, next, out[0]);
    let tally = tally_at(text, known, line, out[1]);
    out[0] -= 1;
    out[1] = tally.place.units;
    tally
}

// Counts again where an item begins. A later piece of a comment begins where its comment does, whose second column is `carried` from run
// to run; any other item begins at a place of one of the two lines.
fn recount_start(
    text: &[u8],
    here: LineStart,
    next: LineStart,
    carried: Option<u32>,
    known: Tally,
    out: &mut [u32],
) -> Tally
    requires { Lines text.now here next known × Position out.old }
    ensures { Again text.now (again (begun_at text.now here next carried)) out.old result out.new }
{
    match carried {
        None => recount_position(text, here, next, known, out),
        Some(units) => {
            out[0] -= 1;
            out[1] = units;
            known
        }
    }
}

// Counts again the positions of a blob or an error. A blob's start, in the last two words, comes before the end of its header: so it is
// counted first. The end of an error's range, in the same two words, comes after its start, which is then counted from the line's start.
fn recount_extra(
    text: &[u8],
    here: LineStart,
    next: LineStart,
    known: Tally,
    out: &mut [u32],
) -> Tally
    requires { Recounts text.now here next known out.old }
    ensures { Again text.now (extra_again (second_by text.now here next)) out.old result out.new }
{
    if out[9] <= 1 {
        return known;
    }
    let first = recount_position(text, here, next, known, &mut out[13..15]);
    recount_position(text, here, next, first, &mut out[11..13])
}

// Counts again the positions of a record, in the order of their places but for an error's.
fn recount_places(
    text: &[u8],
    here: LineStart,
    next: LineStart,
    carried: Option<u32>,
    known: Tally,
    out: &mut [u32],
) -> Tally
    requires { Recounts text.now here next known out.old }
    ensures { Recounted text.now here next carried out.old result out.new }
{
    let extra = recount_extra(text, here, next, known, out);
    let start = recount_start(text, here, next, carried, extra, &mut out[2..4]);
    recount_position(text, here, next, start, &mut out[4..6])
}

// The same, with no count where none is needed.
pub fn recount(
    text: &[u8],
    here: LineStart,
    next: LineStart,
    carried: Option<u32>,
    known: Tally,
    out: &mut [u32],
) -> Tally
    requires { Recounts text.now here next known out.old }
    ensures { Recounted text.now here next carried out.old result out.new }
{
    if is_plain(text, here, carried, known, out) {
        return recount_plain(known, out);
    }
    recount_places(text, here, next, carried, known, out)
}

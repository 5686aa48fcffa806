// One turn of the second run (document 02, K2): the item that stands ahead is read and written as in the first run, and then its record's
// positions are counted again, in UTF-16 units.
//
// Proved: a turn stops where the definition's turn of the first run does; else it writes the record of the definition's second step and
// stands where that comes to (specs/Turning.antt). Assumed: nothing but what each function's `requires` says: the run was not refused, it
// stands between two items, and the tables of operator and of symbol characters are lent.
#![tactic(auto)]

ghost use Rattle.std.specs.Prelude.{[], ◌≡◌, eqb, if◌then◌else◌};
ghost use Rattle.run_turn.specs.Running.{Between};
ghost use Rattle.select.specs.Standing.{Lent};
ghost use Rattle.utf16_positions.specs.Places.{line_in};
ghost use Rattle.utf16_turn.specs.Turning.{begun_in, Recountable, RecountedItem, cursor_at, cursor_of, LooksAhead, Utf16Between, Utf16Ran};

use definition::{RECORD, State, Utf16State};
use fast_path::write_tokens;
use lookahead::NextItem;
use position::Cache;
use reader::Cursor;
use run_turn::TurnResult;
use utf16_positions::{LineStart, Place, Tally, recount};

// Where the second run stands: its state, a column that is known there, and a place of the line with both its columns.
#[derive(Clone, Copy)]
pub struct Utf16Cursor {
    pub state: Utf16State,
    pub known: Cache,
    pub tally: Tally,
}

// What stands ahead of a run between two items: where it is given, after white space, and what is known of it before it is read.
#[derive(Clone, Copy)]
pub struct Ahead {
    pub here: Cursor,
    pub item: NextItem,
}

// Where a run begins from a saved state: at the start of its line both columns are known.
pub fn cursor_at(g: Utf16State) -> Utf16Cursor
    ensures { result ≡ cursor_at g }
{
    let first = g.first;
    let start = LineStart {
        line: first.line,
        bol: first.bol,
        column: first.column,
        units: g.column,
    };
    let known = Cache {
        off: first.bol,
        col: first.column,
    };
    let place = Place {
        off: first.bol,
        col: first.column,
        units: g.column,
    };
    let tally = Tally { start, place };
    Utf16Cursor {
        state: g,
        known,
        tally,
    }
}

// Where the first run stands then.
fn first_cursor(at: Utf16Cursor) -> Cursor
    ensures { result ≡ cursor_of at }
{
    let g = at.state;
    let st = g.first;
    let known = at.known;
    Cursor { st, known }
}

// The line that a state is on to which the next step from g comes: its start has g's second column on g's line, and 0 on a later one.
fn line_in(g: Utf16State, a: State) -> LineStart
    ensures { result ≡ line_in g a }
{
    let first = g.first;
    if a.line == first.line {
        return LineStart {
            line: a.line,
            bol: a.bol,
            column: a.column,
            units: g.column,
        };
    }
    LineStart {
        line: a.line,
        bol: a.bol,
        column: a.column,
        units: 0,
    }
}

// Where the item of a step from g begins.
fn begun_in(g: Utf16State) -> Option<u32>
    ensures { result ≡ begun_in g }
{
    let first = g.first;
    if first.mode == 1 {
        return Some(g.comment);
    }
    None
}

// The second column of the comment's start in the state `next`, where its last piece begins at the column `start`.
fn comment_in(next: State, start: u32) -> u32
    ensures { result ≡ (if eqb next.mode 1 then start else 0) }
{
    if next.mode == 1 {
        return start;
    }
    0
}

// Counts the positions of a record again, of the item that is given at `here` and after which the first run stands at `next`.
fn recount_item(
    text: &[u8],
    at: Utf16Cursor,
    here: State,
    next: Cursor,
    out: &mut [u32],
) -> Utf16Cursor
    requires { Recountable text.now at here next out.old }
    ensures { RecountedItem text.now at here next out.old result out.new }
{
    let g = at.state;
    let before = at.tally;
    let st = next.st;
    let known = next.known;
    let line = line_in(g, st);
    let tally = recount(text, line_in(g, here), line, begun_in(g), before, out);
    let state = Utf16State {
        first: st,
        column: line.units,
        comment: comment_in(st, out[3]),
    };
    Utf16Cursor {
        state,
        known,
        tally,
    }
}

// What stands ahead, and where. Lent no more than the records that are written, the fast path finds no room for another and only looks
// ahead: so there is one place where the lexer looks ahead, and the compiler puts all of it into the fast path's loop.
fn look_ahead(
    text: &[u8],
    classes: &[u8],
    ops: &[bool; 128],
    symbols: &[bool; 128],
    from: Cursor,
    count: usize,
    used: usize,
    records: &mut [u32],
    payload: &mut [u8],
) -> Ahead
    requires { Between text.now [] classes.now from count used records.old payload.old × Lent classes.now ops.now symbols.now }
    ensures { LooksAhead text.now classes.now from result records.old payload.old records.new payload.new }
{
    let written = RECORD * count;
    let tokens = write_tokens(
        text,
        classes,
        ops,
        symbols,
        from,
        count,
        used,
        &mut records[..written],
        payload,
    );
    let here = tokens.here;
    let item = tokens.ahead;
    Ahead { here, item }
}

// One turn.
pub fn turn(
    text: &[u8],
    name: &[u8],
    classes: &[u8],
    ops: &[bool; 128],
    symbols: &[bool; 128],
    at: Utf16Cursor,
    count: usize,
    used: usize,
    records: &mut [u32],
    payload: &mut [u8],
) -> TurnResult<Utf16Cursor>
    requires { Utf16Between text.now name.now classes.now at count used records.old payload.old × Lent classes.now ops.now symbols.now }
    ensures { Utf16Ran text.now name.now classes.now at count used records.old payload.old result records.new payload.new }
{
    let from = first_cursor(at);
    let ahead = look_ahead(
        text, classes, ops, symbols, from, count, used, records, payload,
    );
    let here = ahead.here;
    let item = ahead.item;
    match run_turn::turn(
        text, name, classes, from, here, item, count, used, records, payload,
    ) {
        TurnResult::Stop(stop) => TurnResult::Stop(stop),
        TurnResult::Wrote { next, used: filled } => {
            let first = RECORD * count;
            let given = here.st;
            let on = recount_item(text, at, given, next, &mut records[first..first + RECORD]);
            TurnResult::Wrote {
                next: on,
                used: filled,
            }
        }
    }
}

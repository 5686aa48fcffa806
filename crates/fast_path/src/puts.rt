// A token written from its action, where it is found, without an item being made of it.
//
// Proved: an action is left, and both buffers are what they were, or it is a token and is written as the definition's item is:
// its record with its columns, its payload, and the state after it (specs/Puts.antt).
// Assumed: nothing but what each function's `requires` says: the action can be carried out where the reader stands, and both
// buffers are written up to where the next record and payload begin.
ghost use Rattle.std.specs.Prelude.{◌≡◌};
ghost use Rattle.definition.specs.Basics.{Bytes};
ghost use Rattle.definition.specs.Item.{words};
ghost use Rattle.definition.specs.Run.{put};
ghost use Rattle.reader.specs.Described.{bytes_of};
ghost use Rattle.record.specs.Numbers.{plain_item};
ghost use Rattle.reader.specs.declared.actions.Action.TheVariants.{Token};
ghost use Rattle.fast_path.specs.Puts.{PairFits, TokenAsks, ActionAsks, Puts};

use definition::{Pos, RECORD};
use payload_write::write_short;
use position::Cache;
use position::ascii_runs::{ascii_run, columns};
use position::columns::AsciiRun;
use reader::actions::Action;
use reader::{Cursor, Payload, short_length};
use record::write_token;

// How many numbers have to be free for one more record.
const NEEDED: usize = RECORD;

// A token that is written: reading goes on at `next`, with so many payload bytes used and with a part of the text that is known to
// be ASCII.
#[derive(Clone, Copy)]
pub struct TokenPut {
    pub next: Cursor,
    pub used: usize,
    pub plain: AsciiRun,
}

// Writes a token's payload from byte `used` on, and its record from number `first` on.
fn write_pair(
    text: &[u8],
    kind: u32,
    sp: Pos,
    ep: Pos,
    comments: u32,
    from: u32,
    to: u32,
    payload: Payload,
    size: usize,
    first: usize,
    used: usize,
    records: &mut [u32],
    bytes: &mut [u8],
)
    requires { PairFits text.now payload size first used records.old bytes.old }
    ensures { (records.new ≡ put records.old first (words (plain_item kind sp ep size comments from to) used)) × ((name f : Bytes) → bytes.new ≡ put bytes.old used (bytes_of text.now name f payload)) }
{
    write_short(text, payload, size, &mut bytes[used..]);
    write_token(
        kind,
        sp,
        ep,
        size as u32,
        comments,
        from,
        to,
        used as u32,
        &mut records[first..],
    );
}

// Writes a token whose position is that of byte `start` and that ends at byte `to`, if its record and its payload fit and its
// payload is a short one.
fn put_token(
    text: &[u8],
    here: Cursor,
    kind: u32,
    start: usize,
    to: usize,
    payload: Payload,
    first: usize,
    used: usize,
    plain: AsciiRun,
    records: &mut [u32],
    bytes: &mut [u8],
) -> Option<TokenPut>
    requires { TokenAsks text.now here start to payload first used plain records.old bytes.old }
    ensures { Puts text.now here (Token kind start to payload) first used records.old bytes.old result records.new bytes.new }
{
    if records.len() - first < NEEDED {
        return None;
    }
    let size = short_length(payload)?;
    if bytes.len() - used < size {
        return None;
    }
    let st = here.st;
    let known = here.known;
    let end = to as u32;
    let ascii = ascii_run(text, known, plain, to);
    let cols = columns(text, st, known, ascii, start as u32, end);
    let sp = Pos {
        line: st.line,
        col: cols.start,
    };
    let ep = Pos {
        line: st.line,
        col: cols.end,
    };
    write_pair(
        text,
        kind,
        sp,
        ep,
        st.comments,
        st.offset,
        end,
        payload,
        size,
        first,
        used,
        records,
        bytes,
    );
    let after = Cache {
        off: end,
        col: cols.end,
    };
    Some(TokenPut {
        next: Cursor {
            st: st.advance(end),
            known: after,
        },
        used: used + size,
        plain: ascii,
    })
}

// Writes what an action says, if it says a token and that fits.
pub fn put_action(
    text: &[u8],
    here: Cursor,
    action: Action,
    first: usize,
    used: usize,
    plain: AsciiRun,
    records: &mut [u32],
    bytes: &mut [u8],
) -> Option<TokenPut>
    requires { ActionAsks text.now here action first used plain records.old bytes.old }
    ensures { Puts text.now here action first used records.old bytes.old result records.new bytes.new }
{
    let Action::Token {
        kind,
        start,
        end: to,
        payload,
    } = action
    else {
        return None;
    };
    put_token(
        text, here, kind, start, to, payload, first, used, plain, records, bytes,
    )
}

// An item as the eighteen numbers of its record. Proved: exactly the definition's `words` are written to the front of the
// lent buffer, and the rest of it keeps what it held. Assumed: nothing but that the buffer has room.
#![tactic(auto)]

ghost use Rattle.std.specs.Prelude.{◌≡◌, ◌≤◌, length};
ghost use Rattle.definition.specs.Item.{record_size, words};
ghost use Rattle.lemmas.specs.Over.{over};
ghost use Rattle.record.specs.Numbers.{extra_numbers, numbers, plain_item};

use definition::{Extra, Item, Pos};

// Word 0 and words 9 to 14, which go by what an item holds besides its kind, its range and its payload. They are document 01's numbers,
// as they stand in the record.
#[derive(Clone, Copy)]
pub struct ExtraNumbers {
    pub sort: u32,
    pub tag: u32,
    pub first: u32,
    pub line: u32,
    pub col: u32,
    pub to_line: u32,
    pub to_col: u32,
}

// Those of a token that holds nothing besides.
const NOTHING: ExtraNumbers = ExtraNumbers {
    sort: 1,
    tag: 0,
    first: 0,
    line: 0,
    col: 0,
    to_line: 0,
    to_col: 0,
};

// The item's sort (1 for a token, 2 for a comment), a tag (for a comment 1 closed, 0 unclosed), a number, and two positions.
fn extra_numbers(extra: Extra) -> ExtraNumbers
    ensures { result ≡ extra_numbers extra }
{
    match extra {
        Extra::NoExtra => NOTHING,
        Extra::CharLit(c) => ExtraNumbers {
            tag: 1,
            first: c,
            ..NOTHING
        },
        Extra::Blob {
            contents,
            pos,
            snap,
        } => ExtraNumbers {
            sort: 1,
            tag: 2,
            first: contents,
            line: pos.line,
            col: pos.col,
            to_line: snap.line,
            to_col: snap.col,
        },
        Extra::LexError { number, p1, p2 } => ExtraNumbers {
            sort: 1,
            tag: 3,
            first: number,
            line: p1.line,
            col: p1.col,
            to_line: p2.line,
            to_col: p2.col,
        },
        Extra::Comment(closed) => ExtraNumbers {
            sort: 2,
            tag: u32::from(closed),
            ..NOTHING
        },
    }
}

// Writes the eighteen numbers of a record.
fn write_words(
    kind: u32,
    sp: Pos,
    ep: Pos,
    used: u32,
    size: u32,
    comments: u32,
    extra: ExtraNumbers,
    from: u32,
    to: u32,
    out: &mut [u32],
)
    requires { record_size ≤ length out.old }
    ensures { out.new ≡ over (numbers kind sp ep used size comments extra from to) out.old }
{
    out[0] = extra.sort;
    out[1] = kind;
    out[2] = sp.line;
    out[3] = sp.col;
    out[4] = ep.line;
    out[5] = ep.col;
    out[6] = used;
    out[7] = size;
    out[8] = comments;
    out[9] = extra.tag;
    out[10] = extra.first;
    out[11] = extra.line;
    out[12] = extra.col;
    out[13] = extra.to_line;
    out[14] = extra.to_col;
    out[15] = 0;
    out[16] = from;
    out[17] = to;
}

// Writes the record of an item whose payload begins at byte `used` of the payload buffer.
pub fn write_record(item: Item, used: u32, out: &mut [u32])
    requires { record_size ≤ length out.old }
    ensures { out.new ≡ over (words item used) out.old }
{
    let extra = item.extra;
    let sp = item.sp;
    let ep = item.ep;
    let numbers = extra_numbers(extra);
    write_words(
        item.kind,
        sp,
        ep,
        used,
        item.length,
        item.comments,
        numbers,
        item.from,
        item.to,
        out,
    );
}

// Writes the record of a token that holds nothing besides its kind, its range and its payload. The parts come one by one, and
// what `extra_numbers` gives for nothing besides is a constant, so that no item is built for it.
pub fn write_token(
    kind: u32,
    sp: Pos,
    ep: Pos,
    size: u32,
    comments: u32,
    from: u32,
    to: u32,
    used: u32,
    out: &mut [u32],
)
    requires { record_size ≤ length out.old }
    ensures { out.new ≡ over (words (plain_item kind sp ep size comments from to) used) out.old }
{
    write_words(kind, sp, ep, used, size, comments, NOTHING, from, to, out);
}

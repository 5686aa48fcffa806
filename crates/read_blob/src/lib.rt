// Blobs: the source's `blob`, which ends at three backticks, and `use_lang`, which ends with the text.
//
// Proved: what is read is what the definition's `blob` or `use_lang` gives: item, payload and state.
// Assumed: nothing but what each function's `requires` says: a reader stands in a sound state of a legal text.
// Cost: a blob is read once.
#![tactic(auto)]

ghost use Rattle.std.specs.Prelude.{◌≡◌};
ghost use Rattle.definition.specs.Basics.{Bytes};
ghost use Rattle.definition.specs.State.{advance};
ghost use Rattle.definition.specs.Blob.{blob, use_lang};
ghost use Rattle.state.specs.Sound.{Stands};
ghost use Rattle.reader.specs.Described.{Reads, Turns};
ghost use Rattle.read_blob.specs.Moves.{contents_move, inside_move, blob_move, lang_move, move_at};
ghost use Rattle.read_blob.specs.Contents.{header_of, kind_of, contents_turn, contents, blob_step, InBlob};

use definition::errors::LexicalError;
use definition::kinds::{BLOB, USE_LANG_BLOB};
use definition::{Extra, Item, Pos};
use match_lit::match_lit;
use matchers::match_newline;
use position::pos_of;
use reader::cursors::{moved, next_line};
use reader::tokens::error_here;
use reader::{Cursor, Payload, Read, ReadResult};
use star::stops::{after, run_end};

// What a blob's header says: the byte where it starts, where its name stands in the text, the position after it, and that of
// its start.
#[derive(Clone, Copy)]
pub struct Header {
    pub start: u32,
    pub from: usize,
    pub to: usize,
    pub pos: Pos,
    pub snap: Pos,
}

// What stands at an offset of a blob: its end, with the offset after it; the text's end, which leaves it open; a line's
// end; or something of its contents.
#[derive(Clone, Copy)]
enum Move {
    Close(usize),
    Open,
    Line(usize),
    On(usize),
}

// A run of the contents, or a backtick by itself.
fn contents_move(text: &[u8], i: usize) -> Move
    ensures { result ≡ contents_move text.now i }
{
    let j = run_end(text, b'`', b'`', i);
    if i < j {
        return Move::On(j);
    }
    Move::On(after(text, i))
}

// What stands at i, if it isn't three backticks.
fn inside_move(text: &[u8], i: usize) -> Move
    ensures { result ≡ inside_move text.now i }
{
    if text.len() <= i {
        return Move::Open;
    }
    let Some(nl) = match_newline(text, i) else {
        return contents_move(text, i);
    };
    Move::Line(nl)
}

// What stands at i in a blob.
fn blob_move(text: &[u8], i: usize) -> Move
    ensures { result ≡ blob_move text.now i }
{
    let Some(e) = match_lit(text, b"```", i) else {
        return inside_move(text, i);
    };
    Move::Close(e)
}

// What stands at i in another language's text, which ends with the text. A function by itself: in place the loop of its run has jumps
// over the whole reading, which are long ones.
#[inline(never)]
fn lang_move(text: &[u8], i: usize) -> Move
    ensures { result ≡ lang_move text.now i }
{
    if text.len() <= i {
        return Move::Close(i);
    }
    let j = run_end(text, b'\n', b'\n', i);
    if i < j {
        return Move::On(j);
    }
    let Some(nl) = match_newline(text, i) else {
        return Move::Open;
    };
    Move::Line(nl)
}

fn move_at(text: &[u8], lang: bool, i: usize) -> Move
    ensures { result ≡ move_at text.now lang i }
{
    if lang {
        return lang_move(text, i);
    }
    blob_move(text, i)
}

fn kind_of(lang: bool) -> u32
    ensures { result ≡ kind_of lang }
{
    if lang {
        return USE_LANG_BLOB;
    }
    BLOB
}

// The blob whose contents began at `from` and end where the reader stands; reading goes on at e.
fn closed(text: &[u8], header: Header, lang: bool, from: usize, at: Cursor, e: usize) -> Read
    requires { InBlob text.now header from at × Stands text.now (advance at.st e) }
    ensures { (name f : Bytes) → Reads text.now name f (blob_step text.now lang from (header_of text.now header) at.st e) result }
{
    let st = at.st;
    let known = at.known;
    let start = pos_of(text, st, known, st.offset);
    let end = pos_of(text, st, start.known, e as u32);
    let sp = start.pos;
    let ep = end.pos;
    let here = end.known;
    let i = st.offset as usize;
    let pos = header.pos;
    let snap = header.snap;
    let extra = Extra::Blob {
        contents: i.saturating_sub(from) as u32,
        pos,
        snap,
    };
    let next = st.advance(e as u32);
    let item = Item {
        kind: kind_of(lang),
        sp,
        ep,
        length: header.to.saturating_sub(header.from) as u32,
        comments: next.comments,
        extra,
        from: header.start,
        to: next.offset,
    };
    let payload = Payload::Blob {
        from: header.from,
        to: header.to,
        contents: from,
        end: i,
    };
    Read {
        item,
        payload,
        next,
        known: here,
    }
}

// One turn of the reading.
fn turn(text: &[u8], name: &[u8], header: Header, lang: bool, from: usize, at: Cursor) -> ReadResult
    requires { InBlob text.now header from at }
    ensures { (f : Bytes) → Turns text.now name.now f (contents_turn text.now lang from (header_of text.now header) at.st) result }
{
    let st = at.st;
    let known = at.known;
    match move_at(text, lang, st.offset as usize) {
        Move::Close(e) => ReadResult::Done(closed(text, header, lang, from, at, e)),
        Move::Open => ReadResult::Done(error_here(
            text,
            name,
            st,
            known,
            LexicalError::UnterminatedExtensionSyntax as u32,
        )),
        Move::Line(e) => ReadResult::Again(next_line(at, e)),
        Move::On(e) => ReadResult::Again(moved(at, e)),
    }
}

// Reads the contents from where the state stands.
fn read_contents(text: &[u8], name: &[u8], header: Header, lang: bool, at: Cursor) -> Read
    requires { InBlob text.now header at.st.offset at }
    ensures { (f : Bytes) → Reads text.now name.now f (contents text.now lang (header_of text.now header) at.st) result }
{
    let st = at.st;
    let from = st.offset as usize;
    let mut here = at;
    loop {
        match turn(text, name, header, lang, from, here) {
            ReadResult::Done(r) => {
                return r;
            }
            ReadResult::Again(next) => {
                here = next;
            }
        }
    }
}

// The source's `blob`, from after its header.
pub fn blob(text: &[u8], name: &[u8], header: Header, at: Cursor) -> Read
    requires { InBlob text.now header at.st.offset at }
    ensures { (f : Bytes) → Reads text.now name.now f (blob text.now (header_of text.now header) at.st) result }
{
    read_contents(text, name, header, false, at)
}

// The source's `use_lang`, from after its header.
pub fn use_lang(text: &[u8], name: &[u8], header: Header, at: Cursor) -> Read
    requires { InBlob text.now header at.st.offset at }
    ensures { (f : Bytes) → Reads text.now name.now f (use_lang text.now (header_of text.now header) at.st) result }
{
    read_contents(text, name, header, true, at)
}

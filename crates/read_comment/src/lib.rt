// A comment, piece by piece: the source's `comment`, whose recursion is the state's depth. A piece ends where a level of the
// comment does, or the text.
//
// Proved: what `comment` reads is what the definition's gives: the item, a payload that describes its bytes, the state, and a
// column that is known there.
// Assumed: nothing but what each function's `requires` says: a reader stands in a comment, in a sound state of a legal text.
// Cost: a comment is read once. A piece whose lines lose bytes is passed over again for their width and for its length; no
// pass goes back before the piece.
#![tactic(auto)]

pub mod line_comments; // line_comments.rt: line comments

ghost use Rattle.definition.specs.Comment.{terminate, comment_turn, comment};
ghost use Rattle.read_comment.specs.LineCommentContracts.{ReadsAny};
ghost use Rattle.read_comment.specs.CommentContracts.{InComment, AtStop, AtMark, Ending, TurnsAny};

use definition::{Extra, Item};
use match_lit::byte_pair;
use matchers::match_newline;
use position::pos_of;
use reader::cursors::{moved, next_line};
use reader::{Cursor, Payload, Read, ReadResult};
use star::stops::{after, run_end};
use trim_lines::{trim_width, trimmed_length};

// The piece that began at byte `from` and whose text ends at byte `to`; the reader stands after it.
fn terminate(text: &[u8], from: u32, to: usize, closed: bool, at: Cursor) -> Read
    requires { Ending text.now to at }
    ensures { ReadsAny text.now (terminate text.now from to closed at.st) result }
{
    let st = at.st;
    let known = at.known;
    let begin = from as usize;
    let width = trim_width(text, begin, to, st.comment.col as usize);
    let length = trimmed_length(text, begin, to, width);
    let here = pos_of(text, st, known, st.offset);
    let next = st.close_comment();
    let sp = st.comment;
    let ep = here.pos;
    let item = Item {
        kind: 0,
        sp,
        ep,
        length: length as u32,
        comments: next.comments,
        extra: Extra::Comment(closed),
        from,
        to: next.offset,
    };
    let payload = Payload::Piece {
        from: begin,
        to,
        width,
        length,
    };
    let column = here.known;
    Read {
        item,
        payload,
        next,
        known: column,
    }
}

// Where neither a run stands nor a level is opened nor a line ends: a level may be closed, or the text may end; else a
// single `(` or `*` is passed.
fn at_mark(text: &[u8], from: u32, at: Cursor) -> ReadResult
    requires { AtMark text.now at }
    ensures { TurnsAny text.now (comment_turn text.now from at.st) result }
{
    let st = at.st;
    let i = st.offset as usize;
    if byte_pair(text, i, b'*', b')') {
        return ReadResult::Done(terminate(text, from, i, true, moved(at, i + 2)));
    }
    if text.len() <= i {
        return ReadResult::Done(terminate(text, from, i, false, at));
    }
    ReadResult::Again(moved(at, after(text, i)))
}

// Where no run of other characters stands: a level may be opened, or a line may end.
fn at_stop(text: &[u8], from: u32, at: Cursor) -> ReadResult
    requires { AtStop text.now at }
    ensures { TurnsAny text.now (comment_turn text.now from at.st) result }
{
    let st = at.st;
    let i = st.offset as usize;
    if byte_pair(text, i, b'(', b'*') {
        let inside = moved(at, i + 2);
        let opened = inside.st;
        let known = inside.known;
        return ReadResult::Again(Cursor {
            st: opened.deeper(),
            known,
        });
    }
    let Some(nl) = match_newline(text, i) else {
        return at_mark(text, from, at);
    };
    ReadResult::Again(next_line(at, nl))
}

// One turn of the reading: a run of other characters is passed whole.
fn comment_turn(text: &[u8], from: u32, at: Cursor) -> ReadResult
    requires { InComment text.now at }
    ensures { TurnsAny text.now (comment_turn text.now from at.st) result }
{
    let st = at.st;
    let i = st.offset as usize;
    let j = run_end(text, b'(', b'*', i);
    if i < j {
        return ReadResult::Again(moved(at, j));
    }
    at_stop(text, from, at)
}

// The next piece of the comment that the reader stands in; the piece began at byte `from`.
pub fn comment(text: &[u8], from: u32, at: Cursor) -> Read
    requires { InComment text.now at }
    ensures { ReadsAny text.now (comment text.now from at.st) result }
{
    let mut here = at;
    loop {
        match comment_turn(text, from, here) {
            ReadResult::Done(r) => {
                return r;
            }
            ReadResult::Again(next) => {
                here = next;
            }
        }
    }
}

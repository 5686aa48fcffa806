// A line's comment: the source's `line_comment`.
//
// Proved: what `line_comment` reads is what the definition's gives: the item, a payload that describes its bytes, the state,
// and a column that is known there.
// Assumed: nothing but what its `requires` says: a reader stands in a sound state of a legal text, no earlier than where the
// comment began.
// Cost: a comment is read once.
ghost use Rattle.definition.specs.Text.{lexeme};
ghost use Rattle.definition.specs.Comment.{line_comment};
ghost use Rattle.read_comment.specs.LineCommentContracts.{After, ReadsAny};

use definition::{Extra, Item};
use position::pos_of;
use reader::{Cursor, Payload, Read};
use star::stops::run_end;

// The rest of the line from where the reader stands, and before it the bytes from `from` up to there.
pub fn line_comment(text: &[u8], from: u32, at: Cursor) -> Read
    requires { After text.now from at }
    ensures { ReadsAny text.now (line_comment text.now from (lexeme text.now from at.st.offset) at.st) result }
{
    let st = at.st;
    let known = at.known;
    let begin = from as usize;
    let to = run_end(text, b'\n', b'\n', st.offset as usize);
    let start = pos_of(text, st, known, st.offset);
    let end = pos_of(text, st, start.known, to as u32);
    let next = st.advance(to as u32).one_more_comment();
    let sp = start.pos;
    let ep = end.pos;
    let item = Item {
        kind: 0,
        sp,
        ep,
        length: to.saturating_sub(begin) as u32,
        comments: next.comments,
        extra: Extra::Comment(true),
        from,
        to: next.offset,
    };
    let payload = Payload::Part { from: begin, to };
    let column = end.known;
    Read {
        item,
        payload,
        next,
        known: column,
    }
}

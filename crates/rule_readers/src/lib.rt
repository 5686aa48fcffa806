// What is read on from after a choice: comments, literals and blobs.
//
// Proved: each function reads what the definition's rule gives (crates/definition/specs/Token.antt): item, payload and state.
// Assumed: nothing but what each function's `requires` says: a reader stands in a sound state of a legal text, the choice
// ends after it (`Chose`), and the class file is accepted where a literal is read.
#![tactic(auto)]

pub mod character_literals; // character_literals.rt: character literals, read

ghost use Rattle.std.specs.Prelude.{◌≡◌, ◌+◌, ◌≤◌};
ghost use Rattle.definition.specs.Basics.{Bytes};
ghost use Rattle.definition.specs.ClassFile.{class_check};
ghost use Rattle.definition.specs.Text.{lexeme};
ghost use Rattle.definition.specs.Position.{cur_pos};
ghost use Rattle.definition.specs.State.{advance, open_comment};
ghost use Rattle.definition.specs.Comment as source;
ghost use Rattle.definition.specs.Strings.{string_lit};
ghost use Rattle.definition.specs.Blob as blob_source;
ghost use Rattle.definition.specs.Token.{blob_header};
ghost use Rattle.read_comment.specs.LineCommentContracts.{ReadsAny};
ghost use Rattle.reader.specs.Described.{Reads};
ghost use Rattle.reader.specs.Actions.{Chose};
ghost use Rattle.rule_readers.specs.Names.{Names};

use position::pos_of;
use read_blob::{Header, blob, use_lang};
use read_comment::comment;
use read_comment::line_comments::line_comment;
use read_string::string_lit;
use reader::cursors::moved;
use reader::{Cursor, Read};

// A comment after its opening.
pub fn comment_start(text: &[u8], at: Cursor, e: usize) -> Read
    requires { Chose text.now at e }
    ensures { ReadsAny text.now (source.comment text.now at.st.offset (open_comment (advance at.st e) (cur_pos text.now at.st))) result }
{
    let st = at.st;
    let known = at.known;
    let here = pos_of(text, st, known, st.offset);
    let column = here.known;
    let inside = Cursor {
        st: st.advance(e as u32).open_comment(here.pos),
        known: column,
    };
    comment(text, st.offset, inside)
}

// A line's comment after its slashes.
pub fn slashes(text: &[u8], at: Cursor, e: usize) -> Read
    requires { Chose text.now at e }
    ensures { ReadsAny text.now (source.line_comment text.now at.st.offset (lexeme text.now at.st.offset e) (advance at.st e)) result }
{
    let st = at.st;
    line_comment(text, st.offset, moved(at, e))
}

// A string literal after its quote.
pub fn literal(text: &[u8], name: &[u8], classes: &[u8], at: Cursor, e: usize) -> Read
    requires { Chose text.now at e × (class_check classes.now ≡ 0) }
    ensures { Reads text.now name.now classes.now (string_lit text.now classes.now (advance at.st e) at.st.offset (cur_pos text.now at.st)) result }
{
    let st = at.st;
    let known = at.known;
    let here = pos_of(text, st, known, st.offset);
    string_lit(text, name, classes, moved(at, e), st.offset, here.pos)
}

// The blob-header of a blob whose name begins after n bytes.
fn header_at(text: &[u8], at: Cursor, e: usize, n: usize) -> Header
    requires { Chose text.now at e × (n ≤ 6) }
    ensures { Names text.now (blob_header text.now at.st e n) e result }
{
    let st = at.st;
    let known = at.known;
    let start = pos_of(text, st, known, st.offset);
    let end = pos_of(text, st, start.known, e as u32);
    let pos = end.pos;
    let snap = start.pos;
    Header {
        start: st.offset,
        from: st.offset as usize + n,
        to: e,
        pos,
        snap,
    }
}

// A blob between backticks.
pub fn fenced(text: &[u8], name: &[u8], at: Cursor, e: usize) -> Read
    requires { Chose text.now at e }
    ensures { (f : Bytes) → Reads text.now name.now f (blob_source.blob text.now (blob_header text.now at.st e 3) (advance at.st e)) result }
{
    blob(text, name, header_at(text, at, e, 3), moved(at, e))
}

// The text of another language.
pub fn language(text: &[u8], name: &[u8], at: Cursor, e: usize) -> Read
    requires { Chose text.now at e }
    ensures { (f : Bytes) → Reads text.now name.now f (blob_source.use_lang text.now (blob_header text.now at.st e 6) (advance at.st e)) result }
{
    use_lang(text, name, header_at(text, at, e, 6), moved(at, e))
}

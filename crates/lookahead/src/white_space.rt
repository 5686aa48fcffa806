// White space and line ends of ASCII, which are passed before a choice is made: nearly half of all choices would be of
// them, and a choice costs far more than a byte.
//
// Proved: from after what is passed the definition's `next_token` gives the same item, and the reader stands there with a
// column that is known.
// Assumed: nothing but what each function's `requires` says: a reader stands in a sound state of a legal text, between
// comments, and the class file is accepted.
ghost use Rattle.lookahead.specs.White.{Between, Passes, AfterWhite};

use match_lit::byte_either;
use matchers::match_newline;
use reader::Cursor;
use reader::cursors::{moved, next_line};
use star::tests::{Blank, White};
use star::{passes_at, star_chars};

// The cursor after one run of white space or one line end, if one stands there.
fn past_white(text: &[u8], classes: &[u8], at: Cursor) -> Option<Cursor>
    requires { Between text.now classes.now at }
    ensures { Passes text.now classes.now at.st result }
{
    let st = at.st;
    let i = st.offset as usize;
    if passes_at(text, Blank, i) {
        let white = White { file: classes };
        return Some(moved(at, star_chars(text, white, i + 1)));
    }
    if !byte_either(text, i, b'\n', b'\r') {
        return None;
    }
    let e = match_newline(text, i)?;
    Some(next_line(at, e))
}

// Where a reader stands after white space and line ends that begin with ASCII.
pub fn after_white(text: &[u8], classes: &[u8], at: Cursor) -> Cursor
    requires { Between text.now classes.now at }
    ensures { AfterWhite text.now classes.now at result }
{
    let mut here = at;
    while let Some(next) = past_white(text, classes, here) {
        here = next;
    }
    here
}

// A character literal, read: its token, with its code point.
//
// Proved: `char_lit` reads what the definition gives (crates/definition/specs/Token.antt): item, payload and state.
// Assumed: nothing but what its `requires` says: a reader stands in a sound state of a legal text, and the choice ends after
// it (`Chose`).
ghost use Rattle.definition.specs.Token.{char_lit};
ghost use Rattle.reader.specs.Actions.{Chose};
ghost use Rattle.rule_readers.specs.Does.{Does};

use definition::Extra;
use definition::kinds::CHAR;
use escapes::unescape;
use position::pos_of;
use reader::tokens::token;
use reader::{Cursor, Payload, Read};

// A character, with its code point.
pub fn char_lit(text: &[u8], name: &[u8], at: Cursor, e: usize) -> Read
    requires { Chose text.now at e }
    ensures { Does text.now name.now (char_lit text.now at.st e) result }
{
    let st = at.st;
    let known = at.known;
    let start = pos_of(text, st, known, st.offset);
    let end = pos_of(text, st, start.known, e as u32);
    let after = st.advance(e as u32);
    let nothing = Payload::Part { from: 0, to: 0 };
    let c = unescape(text, st.offset as usize + 1);
    token(
        name,
        CHAR,
        nothing,
        st.offset,
        start.pos,
        end.pos,
        Extra::CharLit(c),
        after,
        end.known,
    )
}

// What is read of a choice that is read whole: an action is carried out.
//
// Proved: each function reads what the definition gives (crates/definition/specs/Token.antt): item, payload and state. Most
// tokens are written straight from their actions (crate `fast_path`); what is left of them, with errors and line comments, one
// `finish` carries out. Characters, which alone have a code point besides, are made by themselves (crate
// `rule_readers`).
// Assumed: nothing but what each function's `requires` says: a reader stands in a sound state of a legal text, the choice
// ends after it (`Chose`), and the action fits the text (`Fits`).
ghost use Rattle.definition.specs.Basics.{Bytes};
ghost use Rattle.definition.specs.Position.{pos_of, cur_pos};
ghost use Rattle.definition.specs.Item.{lex_error};
ghost use Rattle.definition.specs.declared.Extra.TheVariants.{NoExtra};
ghost use Rattle.reader.specs.Described.{Describes, Sized, Reads};
ghost use Rattle.reader.specs.Actions.{spanned, Chose, Spans, action_step, Fits};

use definition::Extra;
use position::pos_of;
use read_comment::line_comments::line_comment;
use reader::actions::Action;
use reader::tokens::{lex_error, token};
use reader::{Cursor, Payload, Read};

// A token up to byte e whose position is that of byte i, with the state after it.
fn finish_from(
    text: &[u8],
    name: &[u8],
    at: Cursor,
    i: usize,
    e: usize,
    kind: u32,
    payload: Payload,
) -> Read
    requires { Spans text.now name.now at i e payload }
    ensures { (f bytes : Bytes) → Describes text.now name.now f payload bytes → Reads text.now name.now f (spanned text.now at.st i e kind bytes NoExtra) result }
{
    let st = at.st;
    let known = at.known;
    let start = pos_of(text, st, known, i as u32);
    let end = pos_of(text, st, start.known, e as u32);
    let next = st.advance(e as u32);
    token(
        name,
        kind,
        payload,
        st.offset,
        start.pos,
        end.pos,
        Extra::NoExtra,
        next,
        end.known,
    )
}

// An error over what was chosen, up to byte e.
fn error_over(text: &[u8], name: &[u8], at: Cursor, e: usize, number: u32, payload: Payload) -> Read
    requires { Chose text.now at e × Sized name.now payload }
    ensures { (f bytes : Bytes) → Describes text.now name.now f payload bytes → Reads text.now name.now f (lex_error text.now at.st number bytes (cur_pos text.now at.st) (pos_of text.now at.st e)) result }
{
    let st = at.st;
    let known = at.known;
    let first = pos_of(text, st, known, st.offset);
    let last = pos_of(text, st, first.known, e as u32);
    lex_error(
        text, name, st, last.known, number, payload, first.pos, last.pos,
    )
}

// What is read by an action on a choice that ends at e.
pub fn finish(text: &[u8], name: &[u8], at: Cursor, e: usize, action: Action) -> Read
    requires { Chose text.now at e × Fits text.now name.now at action }
    ensures { (f : Bytes) → Reads text.now name.now f (action_step text.now name.now f at.st e action) result }
{
    let st = at.st;
    match action {
        Action::Token {
            kind,
            start,
            end,
            payload,
        } => finish_from(text, name, at, start, end, kind, payload),
        Action::Error { number, payload } => error_over(text, name, at, e, number, payload),
        Action::LineComment => line_comment(text, st.offset, at),
    }
}

// Numbers. A number's text is its cleaned part, which is a part of the text.
//
// Proved: each function's action stands for what the definition's rule gives (crates/definition/specs/Token.antt): item,
// payload and state. No payload is copied: each is a part of the text.
// Assumed: nothing but what each function's `requires` says: a reader stands in a sound state of a legal text, and the
// choice ends after it (`Chose`; `bad_number`, which isn't lent the text, promises what it does where that holds).
#![tactic(auto)]

ghost use Rattle.std.specs.Prelude.{◌≤◌, length};
ghost use Rattle.definition.specs.Basics.{Bytes};
ghost use Rattle.definition.specs.Token.{number, uint8, bad_number};
ghost use Rattle.reader.specs.Actions.{Chose, Rules, RulesOf};
ghost use Rattle.rule_numbers.specs.Cleaned.{CleanedAt};

use definition::errors::LexicalError;
use definition::kinds::UINT8;
use number_value::above_255;
use number_value::cleaning::{Part, clean_number};
use reader::actions::Action;
use reader::{Cursor, Payload};

// The part of the text that is left of a number between i and e when it is cleaned.
fn cleaned(text: &[u8], i: usize, e: usize) -> Part
    requires { (i ≤ e) × (e ≤ length text.now) }
    ensures { CleanedAt text.now i e result }
{
    let part = clean_number(&text[i..e]);
    Part {
        from: i + part.from,
        to: i + part.to,
    }
}

// A number of a kind.
pub fn number(text: &[u8], at: Cursor, e: usize, kind: u32) -> Action
    requires { Chose text.now at e }
    ensures { RulesOf text.now at e kind (number text.now at.st e) result }
{
    let st = at.st;
    let i = st.offset as usize;
    let part = cleaned(text, i, e);
    let payload = Payload::Part {
        from: part.from,
        to: part.to,
    };
    Action::Token {
        kind,
        start: i,
        end: e,
        payload,
    }
}

// A number of a byte; error 4 where it is too big.
pub fn uint8(text: &[u8], at: Cursor, e: usize) -> Action
    requires { Chose text.now at e }
    ensures { (name : Bytes) → Rules text.now name at e (uint8 text.now at.st e) result }
{
    let st = at.st;
    let i = st.offset as usize;
    let part = cleaned(text, i, e);
    let from = part.from;
    let to = part.to;
    if above_255(&text[from..to]) {
        return Action::Error {
            number: LexicalError::OutOfRangeCharacter as u32,
            payload: Payload::Part { from: 0, to: 0 },
        };
    }
    Action::Token {
        kind: UINT8,
        start: i,
        end: e,
        payload: Payload::Part { from, to },
    }
}

// Error 5: what begins like a number and is none, with its text.
pub fn bad_number(at: Cursor, e: usize) -> Action
    ensures { (s name : Bytes) → Chose s at e → Rules s name at e (bad_number s at.st e) result }
{
    let st = at.st;
    let lexeme = Payload::Part {
        from: st.offset as usize,
        to: e,
    };
    Action::Error {
        number: LexicalError::InvalidNumber as u32,
        payload: lexeme,
    }
}

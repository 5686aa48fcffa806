// Tokens that their lexemes decide.
//
// Proved: each function's action stands for what the definition's rule gives (crates/definition/specs/Token.antt): item,
// payload and state. No payload is copied: each is a part of the text or a text of the tables.
// Assumed: nothing but what each function's `requires` says: a reader stands in a sound state of a legal text, and the
// choice ends after it (`Chose`; `worded`, which isn't lent the text, promises what it does where that holds).
#![tactic(auto)]

ghost use Rattle.definition.specs.Basics.{Bytes};
ghost use Rattle.definition.specs.Tables.{constructors, uoperators};
ghost use Rattle.definition.specs.Token.{ident, finish_word};
ghost use Rattle.reader.specs.Actions.{Chose, Rules};
ghost use Rattle.rule_words.specs.Worded.{worded, Placed};

use definition::errors::LexicalError;
use definition::kinds::{IDENT, NAME, OPINFIX4};
use reader::actions::Action;
use reader::{Cursor, Payload};
use table_entries::kind_at;
use table_keywords::constructors::constructor;
use table_keywords::reserved_prefix::reserved;
use table_keywords::{keyword, uoperator};

// The token of a word of the tables; where it is none of them, the lexeme and the kind given.
fn worded(at: Cursor, e: usize, word: Option<usize>, kind: u32) -> Action
    requires { Placed word }
    ensures { (s name : Bytes) → Chose s at e → Rules s name at e (worded s at.st e word kind) result }
{
    let st = at.st;
    let i = st.offset as usize;
    match word {
        Some(k) => Action::Token {
            kind: kind_at(k),
            start: i,
            end: e,
            payload: Payload::Text(k),
        },
        None => Action::Token {
            kind,
            start: i,
            end: e,
            payload: Payload::Part { from: i, to: e },
        },
    }
}

// An identifier or a keyword; error 3 where its prefix is reserved.
pub fn ident(text: &[u8], at: Cursor, e: usize) -> Action
    requires { Chose text.now at e }
    ensures { (name : Bytes) → Rules text.now name at e (ident text.now at.st e) result }
{
    let st = at.st;
    let i = st.offset as usize;
    if reserved(&text[i..e]) {
        return Action::Error {
            number: LexicalError::ReservedPrefix as u32,
            payload: Payload::Part { from: 0, to: 0 },
        };
    }
    worded(at, e, keyword(&text[i..e]), IDENT)
}

// The name of a constructor or of a module.
pub fn capital_name(text: &[u8], at: Cursor, e: usize) -> Action
    requires { Chose text.now at e }
    ensures { (name : Bytes) → Rules text.now name at e (finish_word text.now at.st e constructors "NAME") result }
{
    let st = at.st;
    let i = st.offset as usize;
    worded(at, e, constructor(&text[i..e]), NAME)
}

// An operator beyond ASCII.
pub fn unicode_operator(text: &[u8], at: Cursor, e: usize) -> Action
    requires { Chose text.now at e }
    ensures { (name : Bytes) → Rules text.now name at e (finish_word text.now at.st e uoperators "OPINFIX4") result }
{
    let st = at.st;
    let i = st.offset as usize;
    worded(at, e, uoperator(&text[i..e]), OPINFIX4)
}

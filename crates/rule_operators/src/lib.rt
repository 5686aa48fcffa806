// What a line comment may cut: a token ends where two slashes stand in it.
//
// Proved: each function's action stands for what the definition's rule gives (crates/definition/specs/Token.antt): item,
// payload and state. No payload is copied: each is a part of the text, or a `>` and a part.
// Assumed: nothing but what each function's `requires` says: a reader stands in a sound state of a legal text, and the
// choice ends after it (`Chose`).
#![tactic(auto)]

ghost use Rattle.std.specs.Prelude.{◌<◌};
ghost use Rattle.definition.specs.Basics.{Bytes};
ghost use Rattle.definition.specs.Tables.{kw_op_entry};
ghost use Rattle.definition.specs.Token.{kw_op, gt, op};
ghost use Rattle.reader.specs.Actions.{Chose, Rules, RulesOf};

use definition::kinds::OPINFIX0C;
use match_lit::no_comment;
use reader::actions::Action;
use reader::{Cursor, Payload};
use table_kw_op::{kw_op_kind, kw_op_length, kw_op_plain_kind};

// A keyword and the operator characters after it, or the keyword by itself where the cut leaves none of them.
pub fn kw_op(text: &[u8], at: Cursor, e: usize, word: usize) -> Action
    requires { Chose text.now at e × (word < 9) }
    ensures { (name : Bytes) → Rules text.now name at e (kw_op text.now at.st e (kw_op_entry word)) result }
{
    let st = at.st;
    let i = st.offset as usize;
    let to = no_comment(text, i, e);
    let from = i + kw_op_length(word);
    let rest = Payload::Part { from, to };
    if from < to {
        return Action::Token {
            kind: kw_op_kind(word),
            start: i,
            end: to,
            payload: rest,
        };
    }
    Action::Token {
        kind: kw_op_plain_kind(word),
        start: i,
        end: to,
        payload: rest,
    }
}

// `>` and symbol characters: the token's position is after the `>`, with which its bytes and its text begin.
pub fn gt(text: &[u8], at: Cursor, e: usize) -> Action
    requires { Chose text.now at e }
    ensures { (name : Bytes) → Rules text.now name at e (gt text.now at.st e) result }
{
    let st = at.st;
    let j = st.offset as usize + 1;
    let to = no_comment(text, j, e);
    Action::Token {
        kind: OPINFIX0C,
        start: j,
        end: to,
        payload: Payload::Greater { from: j, to },
    }
}

// An operator; cut to nothing it is a line's comment.
pub fn op(text: &[u8], at: Cursor, e: usize, kind: u32) -> Action
    requires { Chose text.now at e }
    ensures { RulesOf text.now at e kind (op text.now at.st e) result }
{
    let st = at.st;
    let i = st.offset as usize;
    let left = no_comment(text, i, e);
    if left == i {
        return Action::LineComment;
    }
    Action::Token {
        kind,
        start: i,
        end: left,
        payload: Payload::Part { from: i, to: left },
    }
}

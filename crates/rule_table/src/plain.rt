// Tokens that their places and words decide: what they hold is told without a look at the text.
ghost use Rattle.std.specs.Prelude.{◌≡◌, ◌≤◌, length};
ghost use Rattle.definition.specs.Basics.{Bytes};
ghost use Rattle.definition.specs.Token.{finish};
ghost use Rattle.reader.specs.Actions.{Chose, Rules};
ghost use Rattle.rule_table.specs.Plain.{plain_kind, plain_text, Gives};
ghost use Rattle.rule_table.specs.Tabled.{Tabled};

use crate::table::kind_of;
use definition::Choice;
use reader::actions::Action;
use reader::{Cursor, Payload};
use table_early::early_kind;
use table_entries::kind_at;

// Where the tables of operator tokens and of mixfix words begin among the entries, and the text `<`.
const OP_TOKENS: usize = 119;

const MIXFIX: usize = 172;

const LESS: usize = 180;

// The kind of a token that its place and word decide.
fn plain_kind(choice: Choice) -> u32
    requires { Tabled choice }
    ensures { result ≡ plain_kind choice.place choice.word }
{
    let k = choice.place;
    match k {
        // REarly
        1 => early_kind(choice.word),
        // ROpToken
        36 => kind_at(OP_TOKENS + choice.word),
        // RMixfix
        50 => kind_at(MIXFIX + choice.word),
        _ => kind_of(k),
    }
}

// The payload of a token that its place and word decide.
fn plain_payload(at: Cursor, choice: Choice) -> Payload
    requires { Tabled choice }
    ensures { (s name : Bytes) → Chose s at choice.end → length name ≤ 4096 → Gives s name result (plain_text s name at.st choice.place choice.end choice.word) }
{
    let st = at.st;
    let i = st.offset as usize;
    let e = choice.end;
    let k = choice.place;
    match k {
        // RSourceFile
        4 => Payload::Name,
        // RLine
        5 => Payload::Line(st.line),
        // RFileLine
        6 => Payload::FileLine(st.line),
        // RReal
        26 => Payload::Part {
            from: i,
            to: e.saturating_sub(1),
        },
        // RBacktickIdent
        32 => Payload::Part {
            from: i + 2,
            to: e.saturating_sub(2),
        },
        // ROpToken
        36 => Payload::Text(OP_TOKENS + choice.word),
        // RLt
        37 => Payload::Text(LESS),
        // RMixfix
        50 => Payload::Part { from: i, to: e },
        _ => Payload::Part { from: 0, to: 0 },
    }
}

// The token.
pub fn plain(at: Cursor, choice: Choice) -> Action
    requires { Tabled choice }
    ensures { (s name : Bytes) → Chose s at choice.end → length name ≤ 4096 → Rules s name at choice.end (finish s at.st choice.end (plain_kind choice.place choice.word) (plain_text s name at.st choice.place choice.end choice.word)) result }
{
    let st = at.st;
    let kind = plain_kind(choice);
    let payload = plain_payload(at, choice);
    Action::Token {
        kind,
        start: st.offset as usize,
        end: choice.end,
        payload,
    }
}

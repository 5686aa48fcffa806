// What is done with a choice, by its rule (crate `rule_table`). Most rules give an action (`ruled`), which is carried out where it
// is known whether the token fits (crate `fast_path`, module `finishes`); those that read on from after the choice, that of
// characters and that of no place read for themselves (`act`). White space and line ends read nothing: who asks for a choice
// passes them (crate `lookahead`).
//
// Proved: an action stands for what the definition's rule gives, and `act` does what the definition's `act` does with the
// choice that `select` makes: it reads an item, its payload and the state after it. The laws that this rests on (in proofs/):
// the table of rules is the definition's (RuleLaws, `rules_are`), and the word of a choice is one of its place's table
// (Tabling).
// Assumed: nothing but what each function's `requires` says: a reader stands in a sound state of a legal text, between
// comments, the choice is `select`'s, and the rule is its place's.
#![tactic(auto)]

pub mod finishes; // finishes.rt: actions carried out that were not written at once: tokens and errors with their positions

ghost use Rattle.std.specs.Prelude.{◌≡◌, ◌≤◌, length};
ghost use Rattle.definition.specs.Basics.{Bytes};
ghost use Rattle.definition.specs.Token.{act};
ghost use Rattle.reader.specs.Described.{Turns};
ghost use Rattle.reader.specs.declared.ReadResult.TheVariants.{Done};
ghost use Rattle.reader.specs.Actions.{Chose, Rules};
ghost use Rattle.rule_table.specs.Tabled.{Tabled};
ghost use Rattle.rule_table.specs.Rules.{rule_of, action_does};
ghost use Rattle.rule_table.specs.declared.table.Rule.TheVariants as rules;
ghost use Rattle.rules.specs.Acting.{Acts};

use definition::Choice;
use definition::errors::LexicalError;
use reader::actions::Action;
use reader::tokens::error_here;
use reader::{Cursor, Read};
use rule_numbers::{bad_number, number, uint8};
use rule_operators::{gt, kw_op, op};
use rule_readers::character_literals::char_lit;
use rule_readers::{comment_start, fenced, language, literal, slashes};
use rule_table::plain::plain;
use rule_table::table::{ActionRule, ReaderRule, kind_of};
use rule_words::{capital_name, ident, unicode_operator};

// The action on a choice whose rule gives one. (The rules are the source's, a closed list, and each arm stands beside the definition's
// `by_rule`: a closure for each would say no more.)
pub fn ruled(text: &[u8], at: Cursor, choice: Choice, rule: ActionRule) -> Action
    requires { Chose text.now at choice.end × Tabled choice × (rule_of choice.place ≡ rules.Action rule) }
    ensures { (name : Bytes) → length name ≤ 4096 → Rules text.now name at choice.end (action_does text.now name rule at.st choice.place choice.end choice.word) result }
{
    let k = choice.place;
    let e = choice.end;
    match rule {
        ActionRule::Plain => plain(at, choice),
        ActionRule::KwOp => kw_op(text, at, e, choice.word),
        ActionRule::Ident => ident(text, at, e),
        ActionRule::Constructor => capital_name(text, at, e),
        ActionRule::Number => number(text, at, e, kind_of(k)),
        ActionRule::UInt8 => uint8(text, at, e),
        ActionRule::BadNumber => bad_number(at, e),
        ActionRule::Gt => gt(text, at, e),
        ActionRule::Op => op(text, at, e, kind_of(k)),
        ActionRule::UOperator => unicode_operator(text, at, e),
    }
}

// What is read of a choice whose rule reads for itself; arm by arm, like `ruled`.
pub fn act(
    text: &[u8],
    name: &[u8],
    classes: &[u8],
    at: Cursor,
    choice: Choice,
    rule: ReaderRule,
) -> Read
    requires { Acts text.now name.now classes.now at choice × (rule_of choice.place ≡ rules.Reader rule) }
    ensures { Turns text.now name.now classes.now (act text.now name.now classes.now at.st choice) (Done result) }
{
    let st = at.st;
    let known = at.known;
    let e = choice.end;
    match rule {
        ReaderRule::TripleBacktick => fenced(text, name, at, e),
        ReaderRule::Lang => language(text, name, at, e),
        ReaderRule::CharLit => char_lit(text, name, at, e),
        ReaderRule::CommentStart => comment_start(text, at, e),
        ReaderRule::LineComment => slashes(text, at, e),
        ReaderRule::StringLit => literal(text, name, classes, at, e),
        ReaderRule::Any => error_here(text, name, st, known, LexicalError::UnexpectedChar as u32),
    }
}

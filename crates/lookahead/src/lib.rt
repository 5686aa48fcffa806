// What stands ahead of a reader: the choice after white space and line ends, with its rule, and the item that it leads to.
//
// Proved: from where `look` stands the definition's `next_token` gives the same item, and gives it there (`chosen_at`); the
// choice is the definition's `select` there, and the rule is its place's; the type leaves no room for white space and line ends.
// What the next item is is said in specs/Lookahead.antt (`ahead_step`).
// Assumed: nothing but what `look`'s `requires` says: a reader stands in a sound state of a legal text, between comments, and
// the class file and the tables of operator and of symbol characters are lent.
#![tactic(auto)]

pub mod white_space; // white_space.rt: white space and line ends of ASCII, passed before a choice

ghost use Rattle.lookahead.specs.Lookahead.{Looks, Sees};

use crate::white_space::after_white;
use definition::Choice;
use reader::Cursor;
use reader::actions::Action;
use reader::cursors::{moved, next_line};
use rule_table::table::{ActionRule, ReaderRule, Rule, rule_of};
use select::select;

// Where a reader stands after white space and line ends, what is chosen there, and the rule of the choice.
#[derive(Clone, Copy)]
pub enum Lookahead {
    // A choice whose rule gives an action.
    Action {
        here: Cursor,
        choice: Choice,
        rule: ActionRule,
    },
    // A choice whose rule reads for itself.
    Reader {
        here: Cursor,
        choice: Choice,
        rule: ReaderRule,
    },
}

// The item that stands ahead of a reader, as far as it is known before it is read.
#[derive(Clone, Copy)]
pub enum NextItem {
    // What a rule reads for itself of a choice.
    ByReader { choice: Choice, rule: ReaderRule },
    // An action on a choice that ends at byte `end`.
    ByAction { end: usize, action: Action },
    // The inside of a comment; or nothing, where the reading has ended.
    InComment,
}

// The next choice that is neither white space nor a line end, and its rule.
pub fn look(
    text: &[u8],
    classes: &[u8],
    ops: &[bool; 128],
    symbols: &[bool; 128],
    at: Cursor,
) -> Lookahead
    requires { Looks text.now classes.now ops.now symbols.now at }
    ensures { Sees text.now classes.now at result }
{
    let mut from = at;
    loop {
        let here = after_white(text, classes, from);
        let st = here.st;
        let choice = select(text, classes, ops, symbols, st.offset as usize);
        match rule_of(choice.place) {
            Rule::White => {
                from = moved(here, choice.end);
            }
            Rule::Newline => {
                from = next_line(here, choice.end);
            }
            Rule::Action(rule) => {
                return Lookahead::Action { here, choice, rule };
            }
            Rule::Reader(rule) => {
                return Lookahead::Reader { here, choice, rule };
            }
        }
    }
}

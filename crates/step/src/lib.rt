// A step of the lexer: the item that stands ahead of a reader, with the state after it.
//
// Proved: `read` reads what the definition gives: after white space and line ends what its `next_token` gives, and in a
// comment what its `comment` gives, item, payload and state, and a column that is known after it.
// Assumed: nothing but what each function's `requires` says: a reader stands in a sound state of a legal text and hasn't
// ended, what stands ahead was found there (crate `lookahead`), the class file is accepted, and the name is short enough.
#![tactic(auto)]

ghost use Rattle.definition.specs.Token.{next_token};
ghost use Rattle.reader.specs.Described.{Reads};
ghost use Rattle.reader.specs.Standing.{Standing};
ghost use Rattle.rule_table.specs.declared.table.Rule.TheVariants as rules;
ghost use Rattle.lookahead.specs.Lookahead.{Faces, Readable, ahead_step};
ghost use Rattle.step.specs.Items.{eof, ReadsEach, Lets};

use definition::kinds::EOF;
use definition::{Choice, Extra};
use lookahead::NextItem;
use position::pos_of;
use read_comment::comment;
use reader::tokens::token;
use reader::{Cursor, Payload, Read};
use rule_table::table::ReaderRule;
use rules::act;
use rules::finishes::finish;

// The token at the text's end.
fn end_of_text(text: &[u8], name: &[u8], at: Cursor) -> Read
    requires { Standing text.now at.st at.known }
    ensures { ReadsEach text.now name.now (eof text.now at.st) result }
{
    let st = at.st;
    let known = at.known;
    let here = pos_of(text, st, known, st.offset);
    let nothing = Payload::Part { from: 0, to: 0 };
    token(
        name,
        EOF,
        nothing,
        st.offset,
        here.pos,
        here.pos,
        Extra::NoExtra,
        st.ended(),
        here.known,
    )
}

// What is read of a choice: the source's `next_token` from after white space and line ends, where no action is given.
fn read_choice(
    text: &[u8],
    name: &[u8],
    classes: &[u8],
    at: Cursor,
    choice: Choice,
    rule: ReaderRule,
) -> Read
    requires { Faces text.now classes.now at choice (rules.Reader rule) × Lets name.now classes.now }
    ensures { Reads text.now name.now classes.now (next_token text.now name.now classes.now at.st) result }
{
    let st = at.st;
    let at_end = text.len() <= st.offset as usize;
    if at_end {
        return end_of_text(text, name, at);
    }
    act(text, name, classes, at, choice, rule)
}

// The item that stands ahead of a reader: what it may be is a closed list, and each arm stands for one line of `ahead_step`.
pub fn read(text: &[u8], name: &[u8], classes: &[u8], at: Cursor, ahead: NextItem) -> Read
    requires { Readable text.now name.now classes.now at ahead × Lets name.now classes.now }
    ensures { Reads text.now name.now classes.now (ahead_step text.now name.now classes.now at.st ahead) result }
{
    let st = at.st;
    match ahead {
        NextItem::ByReader { choice, rule } => read_choice(text, name, classes, at, choice, rule),
        NextItem::ByAction { end, action } => finish(text, name, at, end, action),
        NextItem::InComment => comment(text, st.offset, at),
    }
}

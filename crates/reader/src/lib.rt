// Payloads as descriptions. An item whose payload doesn't fit is left unwritten, so where a payload's bytes come from, and
// how many they are, is known before the first is written.
//
// Proved: the length of a description is `length_of` (specs/Described.antt), or `short_length` where that is enough; what
// bytes a description stands for is `bytes_of` there, and those who answer a description prove that it describes the
// payload (`Describes`).
// Assumed: nothing but what each function's `requires` says.
#![tactic(auto)]

pub mod actions; // actions.rt: what a rule may say of a choice that is read whole: a token, an error or a line's comment
pub mod cursors; // cursors.rt: where a reader stands after it reads on
pub mod tokens; // tokens.rt: tokens and errors as readers answer them

ghost use Rattle.std.specs.Prelude.{◌≡◌, ◌≤◌, length};
ghost use Rattle.std.proofs.Math.Seq.{slice};
ghost use Rattle.reader.specs.Described.{length_of, short_length, Listed, Measurable};

use definition::{Item, State};
use number_value::decimals::show_length;
use position::Cache;
use table_entries::text_length;

// Where the bytes of a payload come from. Offsets are those of the text; `to` and `end` are the ends of the bytes.
#[derive(Clone, Copy)]
pub enum Payload {
    // A part of the text.
    Part {
        from: usize,
        to: usize,
    },
    // A text of the tables, by its number.
    Text(usize),
    // `>` and a part of the text.
    Greater {
        from: usize,
        to: usize,
    },
    // The file's name.
    Name,
    // A line's number.
    Line(u32),
    // The file's name, and a line's number in parentheses.
    FileLine(u32),
    // What a string literal holds whose first byte after the quote is at `from`.
    Literal {
        from: usize,
        length: usize,
    },
    // A piece of a comment, a part of the text with `*)` after it, each line without its first `width` bytes.
    Piece {
        from: usize,
        to: usize,
        width: usize,
        length: usize,
    },
    // A blob: its name and then its contents.
    Blob {
        from: usize,
        to: usize,
        contents: usize,
        end: usize,
    },
}

// What a step reads: an item, its payload's description, the state after it, and a column that is known there.
#[derive(Clone, Copy)]
pub struct Read {
    pub item: Item,
    pub payload: Payload,
    pub next: State,
    pub known: Cache,
}

// Where a reader stands: a state, and a column that is known there.
#[derive(Clone, Copy)]
pub struct Cursor {
    pub st: State,
    pub known: Cache,
}

// What a turn of a reader answers: what it has read, or where it goes on, as the definition's `done` and `again`. (Neither is an error,
// as in a Result, and neither leaves a function early, as in the library's ControlFlow.)
#[derive(Clone, Copy)]
pub enum ReadResult {
    Done(Read),
    Again(Cursor),
}

// The bytes of a text from `from` up to `to`; none where `from` is past `to`.
pub fn part(text: &[u8], from: usize, to: usize) -> &[u8]
    requires { to ≤ length text.now }
    ensures { result.now ≡ slice from to text.now }
{
    &text[from.min(to)..to]
}

// How many bytes a payload has.
pub fn length_of(name: &[u8], payload: Payload) -> usize
    requires { Measurable name.now payload }
    ensures { result ≡ length_of name.now payload }
{
    match payload {
        Payload::Part { from, to } => to.saturating_sub(from),
        Payload::Text(k) => text_length(k),
        Payload::Greater { from, to } => 1 + to.saturating_sub(from),
        Payload::Name => name.len(),
        Payload::Line(n) => show_length(n),
        Payload::FileLine(n) => name.len() + (show_length(n) + 2),
        Payload::Literal { from: _, length } => length,
        Payload::Piece {
            from: _,
            to: _,
            width: _,
            length,
        } => length,
        Payload::Blob {
            from,
            to,
            contents,
            end,
        } => to.saturating_sub(from) + end.saturating_sub(contents),
    }
}

// How many bytes a payload has that is a part of the text or a text of the tables; nothing for the others.
pub fn short_length(payload: Payload) -> Option<usize>
    requires { Listed payload }
    ensures { result ≡ short_length payload }
{
    match payload {
        Payload::Part { from, to } => Some(to.saturating_sub(from)),
        Payload::Text(k) => Some(text_length(k)),
        _ => None,
    }
}

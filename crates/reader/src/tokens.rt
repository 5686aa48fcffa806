// Tokens and errors as readers answer them.
ghost use Rattle.std.specs.Prelude.{[]};
ghost use Rattle.definition.specs.Basics.{Bytes};
ghost use Rattle.definition.specs.Position.{cur_pos};
ghost use Rattle.definition.specs.Item.{tok, lex_error};
ghost use Rattle.reader.specs.Described.{Describes, KnownAt, Sized, Reads};
ghost use Rattle.reader.specs.Standing.{Standing};

use crate::{Payload, Read, length_of};
use definition::kinds::ERROR;
use definition::{Extra, Item, Pos, State};
use position::{Cache, pos_of};

// The source's `tok`: a token that is read from byte `from` on, with the state after it, and a column that is known there.
pub fn token(
    name: &[u8],
    kind: u32,
    payload: Payload,
    from: u32,
    sp: Pos,
    ep: Pos,
    extra: Extra,
    next: State,
    known: Cache,
) -> Read
    requires { Sized name.now payload }
    ensures { (s f bytes : Bytes) → Describes s name.now f payload bytes → KnownAt s next known → Reads s name.now f (tok kind bytes from sp ep extra next) result }
{
    let length = length_of(name, payload) as u32;
    let item = Item {
        kind,
        sp,
        ep,
        length,
        comments: next.comments,
        extra,
        from,
        to: next.offset,
    };
    Read {
        item,
        payload,
        next,
        known,
    }
}

// The source's `lex_error` and ERROR token, where reading stopped.
pub fn lex_error(
    text: &[u8],
    name: &[u8],
    st: State,
    known: Cache,
    number: u32,
    payload: Payload,
    p1: Pos,
    p2: Pos,
) -> Read
    requires { Standing text.now st known × Sized name.now payload }
    ensures { (f bytes : Bytes) → Describes text.now name.now f payload bytes → Reads text.now name.now f (lex_error text.now st number bytes p1 p2) result }
{
    let here = pos_of(text, st, known, st.offset);
    let extra = Extra::LexError { number, p1, p2 };
    token(
        name,
        ERROR,
        payload,
        st.offset,
        here.pos,
        here.pos,
        extra,
        st.ended(),
        here.known,
    )
}

// An error without a payload, at the place where reading stopped.
pub fn error_here(text: &[u8], name: &[u8], st: State, known: Cache, number: u32) -> Read
    requires { Standing text.now st known }
    ensures { (f : Bytes) → Reads text.now name.now f (lex_error text.now st number [] (cur_pos text.now st) (cur_pos text.now st)) result }
{
    let here = pos_of(text, st, known, st.offset);
    let nothing = Payload::Part { from: 0, to: 0 };
    lex_error(
        text, name, st, here.known, number, nothing, here.pos, here.pos,
    )
}

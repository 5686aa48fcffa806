// The choice at every offset of standard input where a character begins: a line for each, with the offset, the place and
// the end of the part; where nothing is permitted, place 0 and the offset itself. The classes are those of the file
// classes.bin in the working directory; a missing one counts as empty. A refused text or class file gives REFUSED and the
// number: 6 for a text above 60,000 bytes, then what the class check answers, then 8 for ill-formed UTF-8.
// Proved: it ends and breaks nothing, and the choice is the definition's (crate `select`). What it writes for the stored
// text, which reaches each of the 50 places and none, is compared with the file stdout.
// Assumed: nothing. What the system gives to read, and takes of what is written, no contract says; a read or a write that fails
// ends the program with its error.
#![tactic(auto)]

ghost use Rattle.select.specs.Standing.{Lent};

use definition::answers::RunRefusal;
use definition::{Choice, Sequence};
use inputs::{class_buffer, read_classes, read_full, short_text_buffer};
use std::io;
use std::io::Write;

const TEXT_LIMIT: usize = 60000;

// A line for a refusal.
fn refuse<W: Write>(out: &mut W, refusal: RunRefusal) -> io::Result<()> {
    let number = refusal.number();
    writeln!(out, "REFUSED {number}")
}

// The line of one choice.
fn show<W: Write>(out: &mut W, i: usize, choice: Choice) -> io::Result<()> {
    let place = choice.place;
    let end = choice.end;
    writeln!(out, "{i} {place} {end}")
}

// The lines of a legal text.
fn list<W: Write>(
    out: &mut W,
    text: &[u8],
    file: &[u8],
    ops: &[bool; 128],
    symbols: &[bool; 128],
) -> io::Result<()>
    requires { Lent file.now ops.now symbols.now }
{
    let mut i = 0;
    while i < text.len() {
        let Sequence::Char(_, width) = utf8::sequence_at(text, i) else {
            return Ok(());
        };
        show(out, i, select::select(text, file, ops, symbols, i))?;
        i += width;
    }
    Ok(())
}

// The lines of a text under a class file, or what refuses them.
fn choices<W: Write>(out: &mut W, text: &[u8], file: &[u8]) -> io::Result<()> {
    if TEXT_LIMIT < text.len() {
        return refuse(out, RunRefusal::TextLength);
    }
    if let Err(refusal) = class_file::check::class_check(file) {
        return refuse(out, RunRefusal::Classes(refusal));
    }
    let bad = utf8::characters::first_bad(text);
    if bad < text.len() {
        return refuse(out, RunRefusal::IllFormed { offset: bad as u32 });
    }
    list(
        out,
        text,
        file,
        &chars::ascii::op_char_table(),
        &chars::ascii::symbolchar_table(),
    )
}

fn main(rt: HostRuntime) -> io::Result<()> {
    let mut text = short_text_buffer();
    let mut file = class_buffer();
    let mut input = rt.reader();
    let length = read_full(&mut input, &mut text)?;
    let size = read_classes(&rt, &mut file)?;
    choices(&mut io::writer(&rt), &text[..length], &file[..size])
}

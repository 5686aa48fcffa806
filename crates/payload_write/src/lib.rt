// Writing a payload's bytes to the front of a lent buffer, by its description.
//
// Proved: exactly the bytes that the description stands for are written, and the rest of the buffer keeps what it held.
// Assumed: nothing but what each function's `requires` says: the description is right for the text, and the buffer has
// room for its bytes.
#![tactic(auto)]

pub mod literals; // literals.rt: what string literals hold, written

ghost use Rattle.std.specs.Prelude.{◌≡◌, ◌∷◌, ◌++◌, ◌+◌, ◌-◌, ◌≤◌, length};
ghost use Rattle.std.proofs.Math.Seq.{slice};
ghost use Rattle.definition.specs.Basics.{Bytes, ch};
ghost use Rattle.definition.specs.Tables.{cps};
ghost use Rattle.definition.specs.Numbers.{show};
ghost use Rattle.lemmas.specs.Over.{over};
ghost use Rattle.reader.specs.Described.{bytes_of};
ghost use Rattle.payload_write.specs.Writable.{Writable, ShortFits};

use crate::literals::{copy_part, write_literal};
use number_value::decimals::show_into;
use reader::Payload;
use table_entries::text_into;
use trim_lines::write_trimmed;

// Writes `>` and a part of the text.
fn write_greater(text: &[u8], from: usize, to: usize, out: &mut [u8])
    requires { (to ≤ length text.now) × (1 + (to - from) ≤ length out.old) }
    ensures { out.new ≡ over (ch ">" ∷ slice from to text.now) out.old }
{
    copy_part(text, from, to, &mut out[1..]);
    out[0] = b'>';
}

// Writes a line's number in parentheses.
fn write_mark(line: u32, out: &mut [u8])
    requires { length (show line) + 2 ≤ length out.old }
    ensures { out.new ≡ over (cps "(" ++ (show line ++ cps ")")) out.old }
{
    let digits = show_into(line, &mut out[1..]);
    out[0] = b'(';
    out[1 + digits] = b')';
}

// Writes the file's name and a line's number in parentheses.
fn write_file_line(name: &[u8], line: u32, out: &mut [u8])
    requires { length name.now + (length (show line) + 2) ≤ length out.old }
    ensures { out.new ≡ over (name.now ++ (cps "(" ++ (show line ++ cps ")"))) out.old }
{
    let n = name.len();
    out[..n].copy_from_slice(name);
    write_mark(line, &mut out[n..]);
}

// Writes two parts of the text, one after the other.
fn write_parts(text: &[u8], from: usize, to: usize, contents: usize, end: usize, out: &mut [u8])
    requires { ((to ≤ length text.now) × (end ≤ length text.now)) × ((to - from) + (end - contents) ≤ length out.old) }
    ensures { out.new ≡ over (slice from to text.now ++ slice contents end text.now) out.old }
{
    let n = copy_part(text, from, to, out);
    copy_part(text, contents, end, &mut out[n..]);
}

// Writes the bytes that a description stands for to the front of the buffer.
pub fn write(text: &[u8], name: &[u8], classes: &[u8], payload: Payload, out: &mut [u8])
    requires { Writable text.now name.now classes.now payload out.old }
    ensures { out.new ≡ over (bytes_of text.now name.now classes.now payload) out.old }
{
    match payload {
        Payload::Part { from, to } => {
            copy_part(text, from, to, out);
        }
        Payload::Text(k) => text_into(k, out),
        Payload::Greater { from, to } => write_greater(text, from, to, out),
        Payload::Name => out[..name.len()].copy_from_slice(name),
        Payload::Line(n) => {
            show_into(n, out);
        }
        Payload::FileLine(n) => write_file_line(name, n, out),
        Payload::Literal { from, length } => write_literal(text, classes, from, length, out),
        Payload::Piece {
            from,
            to,
            width,
            length: _,
        } => write_trimmed(text, from, to, width, out),
        Payload::Blob {
            from,
            to,
            contents,
            end,
        } => write_parts(text, from, to, contents, end, out),
    }
}

// Writes the bytes of a payload that is a part of the text or a text of the tables, `size` in number, to the front of the
// buffer. Where there are none, as for a token that is its kind alone, the description is not looked at.
pub fn write_short(text: &[u8], payload: Payload, size: usize, out: &mut [u8])
    requires { ShortFits text.now payload size out.old }
    ensures { (name f : Bytes) → out.new ≡ over (bytes_of text.now name f payload) out.old }
{
    if size == 0 {
        return;
    }
    match payload {
        Payload::Part { from, to } => {
            copy_part(text, from, to, out);
        }
        Payload::Text(k) => text_into(k, out),
        _ => {}
    }
}

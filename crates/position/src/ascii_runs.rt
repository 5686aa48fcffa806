// The columns of a token's ends. Over bytes that are all ASCII a column grows by one for each byte, so that there nothing is
// counted: 64 bytes are looked at in one go, which is less than counting them, and serve every token that ends among them.
ghost use Rattle.std.specs.Prelude.{true, ◌≡◌, ◌+◌, ◌-◌, ◌≤◌, leb, length, get_or};
ghost use Rattle.definition.specs.Position.{one_each};
ghost use Rattle.position.specs.Columns.{Asked, column_at};
ghost use Rattle.position.specs.AsciiRuns.{Ascii, AsciiTo, Plain, Covers};

use crate::columns::{AsciiRun, Columns};
use crate::{Cache, known_after};
use definition::State;

// Whether the 64 bytes from i on are all ASCII: the bits of all of them together, in a loop without a way out, which the
// compiler turns into a few instructions.
fn ascii_block(text: &[u8], i: usize) -> bool
    requires { i + 64 ≤ length text.now }
    ensures { result ≡ true → Ascii text.now i (i + 64) }
{
    let mut bits: u8 = 0;
    for b in &text[i..i + 64] {
        bits |= b;
    }
    bits < 128
}

// Where a run of ASCII from i on ends, as far as it is looked at: 64 bytes, or none where those are not all ASCII or the
// text ends before.
pub fn ascii_from(text: &[u8], i: usize) -> usize
    ensures { AsciiTo text.now i result }
{
    if 64 <= text.len() && i <= text.len() - 64 && ascii_block(text, i) {
        i + 64
    } else {
        i
    }
}

// Whether the byte before `to` is beyond ASCII; where the text ends before that byte, no.
fn ends_beyond_ascii(text: &[u8], to: usize) -> bool
    requires { 1 ≤ to }
    ensures { result ≡ leb 128 (get_or text.now (to - 1) 0) }
{
    to <= text.len() && 128 <= text[to - 1]
}

// A run of ASCII that may hold the bytes from the known offset up to `to`: the one given where it reaches so far, else one that
// is looked for after the known offset. Where the last of those bytes is beyond ASCII no run holds them: none is looked for, and
// the one given is handed back.
pub fn ascii_run(text: &[u8], known: Cache, plain: AsciiRun, to: usize) -> AsciiRun
    requires { Plain text.now plain }
    ensures { Plain text.now result }
{
    if to <= plain.to || ends_beyond_ascii(text, to) {
        return plain;
    }
    let from = known.off as usize;
    AsciiRun {
        from,
        to: ascii_from(text, from),
    }
}

// Whether a token from `from` up to `to` stands after the known offset, and the run of ASCII holds all the bytes from there on.
fn covers(plain: AsciiRun, known: Cache, from: u32, to: u32) -> bool
    ensures { result ≡ true → Covers plain known from to }
{
    to as usize <= plain.to && plain.from <= known.off as usize && known.off <= from && from <= to
}

// The columns of a token's ends: where the run of ASCII covers it they are known by the offsets alone.
pub fn columns(text: &[u8], st: State, known: Cache, plain: AsciiRun, from: u32, to: u32) -> Columns
    requires { Asked one_each text.now st known from × Asked one_each text.now st known to × Plain text.now plain }
    ensures { (result.start ≡ (column_at one_each text.now st from).col) × (result.end ≡ (column_at one_each text.now st to).col) }
{
    if covers(plain, known, from, to) {
        return Columns {
            start: known.col + (from - known.off),
            end: known.col + (to - known.off),
        };
    }
    let start = known_after(text, st, known, from);
    let end = known_after(text, st, start, to);
    Columns {
        start: start.col,
        end: end.col,
    }
}

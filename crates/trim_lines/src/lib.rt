// The trimming of comments: how many bytes each line of a comment's piece loses, how many are left, and those that are left,
// written. A piece is a part of the text with `*)` after it; each function passes over it once, byte by byte.
//
// Proved: the width is the definition's for the start column, the length is that of the trimmed piece, and the bytes written
// are those of the trimmed piece; proofs/Trimming.antt has that they are what `maybe_trim_lines` gives.
// Assumed: nothing but what each function's `requires` says.
#![tactic(auto)]

ghost use Rattle.std.specs.Prelude.{◌≡◌, ◌<◌, ◌≤◌, length};
ghost use Rattle.definition.specs.Trim.{trim_width, split_lines};
ghost use Rattle.reader.specs.Described.{trimmed};
ghost use Rattle.lemmas.specs.Over.{over};
ghost use Rattle.trim_lines.specs.Trimming.{piece, narrow, narrowest, keeps, left_after, Short, Room, Puts, Fits};

use reader::part;

// The width so far, and the spaces that the line begins with. Where these are more than the width, the rest of the line
// doesn't matter: it holds enough spaces, or another byte was met already.
#[derive(Clone, Copy)]
pub struct Margin {
    pub width: usize,
    pub spaces: usize,
}

// The margin after one byte more.
fn narrow(margin: Margin, b: u8) -> Margin
    requires { margin.spaces < 18446744073709551615 }
    ensures { result ≡ narrow margin b }
{
    if b == b'\n' {
        return Margin {
            width: margin.width,
            spaces: 0,
        };
    }
    if margin.width < margin.spaces {
        return margin;
    }
    if b == b' ' {
        return Margin {
            width: margin.width,
            spaces: margin.spaces + 1,
        };
    }
    Margin {
        width: margin.spaces,
        spaces: margin.spaces + 1,
    }
}

// The width at a byte that is neither a space nor a line end, as the piece's last two are.
fn narrowest(margin: Margin) -> usize
    ensures { result ≡ narrowest margin }
{
    if margin.width < margin.spaces {
        return margin.width;
    }
    margin.spaces
}

// How many bytes each line of a piece loses, by the column that its comment starts at. A width of 0 stays, so that a
// comment at column 0, and a piece that begins with no space, cost nothing.
pub fn trim_width(text: &[u8], from: usize, to: usize, column: usize) -> usize
    requires { to ≤ length text.now }
    ensures { result ≡ trim_width column (split_lines (piece text.now from to)) }
{
    let mut margin = Margin {
        width: column,
        spaces: 0,
    };
    for &b in part(text, from, to) {
        if margin.width == 0 {
            return 0;
        }
        margin = narrow(margin, b);
    }
    narrowest(margin)
}

// A byte stays where it ends a line, or where its line has lost enough.
fn keeps(left: usize, b: u8) -> bool
    ensures { result ≡ keeps left b }
{
    b == b'\n' || left == 0
}

// How many bytes the line still loses after a byte.
fn left_after(width: usize, left: usize, b: u8) -> usize
    ensures { result ≡ left_after width left b }
{
    if b == b'\n' {
        return width;
    }
    left.saturating_sub(1)
}

// How many bytes a piece has whose every line lost `width` of its own.
pub fn trimmed_length(text: &[u8], from: usize, to: usize, width: usize) -> usize
    requires { Short text.now to }
    ensures { result ≡ length (trimmed width (piece text.now from to)) }
{
    if width == 0 {
        return to.saturating_sub(from) + 2;
    }
    let mut length: usize = 0;
    let mut left = width;
    for &b in part(text, from, to) {
        length += usize::from(keeps(left, b));
        left = left_after(width, left, b);
    }
    length + 2usize.saturating_sub(left)
}

// Writes a byte to a place of a buffer, if it stays, and says where the next one goes.
fn put(left: usize, b: u8, out: &mut [u8], at: usize) -> usize
    requires { Fits left b at out.old }
    ensures { Puts (keeps left b) b at out.old out.new result }
{
    if keeps(left, b) {
        out[at] = b;
        return at + 1;
    }
    at
}

// Writes the bytes of such a piece to the front of a buffer.
pub fn write_trimmed(text: &[u8], from: usize, to: usize, width: usize, out: &mut [u8])
    requires { Room text.now from to width out.old }
    ensures { out.new ≡ over (trimmed width (piece text.now from to)) out.old }
{
    let mut length: usize = 0;
    let mut left = width;
    for &b in part(text, from, to) {
        length = put(left, b, out, length);
        left = left_after(width, left, b);
    }
    length = put(left, b'*', out, length);
    left = left_after(width, left, b'*');
    put(left, b')', out, length);
}

// Columns and positions. A column goes on from the last one that is known, so that a line of n bytes costs n bytes of
// counting over all of its items. Proved: the count is the definition's, and the column of an offset is the
// definition's from any cache that is right, and the cache afterwards, lent or handed back, is right again. The laws of
// the count, of the loops that make it and of columns are stated for any weight per character, and so are those of the
// characters after an offset (proofs/Skips.antt); the functions count 1 for each, and so does the law that a part of the
// bytes counts by itself what it counts in the whole (proofs/Counting.antt).
// Assumed: nothing but what each function's `requires` says.
#![tactic(auto)]

pub mod ascii_runs; // ascii_runs.rt: the functions
pub mod columns; // columns.rt: the columns of a token's ends, without a count where the bytes before them are known to be ASCII

ghost use Rattle.std.specs.Prelude.{◌≡◌, ◌-◌, ◌≤◌, length};
ghost use Rattle.definition.specs.Position.{count_chars, one_each};
ghost use Rattle.position.specs.Columns.{unit, Asked, column_at, located};

use definition::{Pos, State};

// The bytes of a part, whose count fits a byte: seven turns of 32.
const PART_LENGTH: usize = 224;

// The source's `cache_off` and `cache_col`: an offset of the current line, and its column.
#[derive(Clone, Copy)]
pub struct Cache {
    pub off: u32,
    pub col: u32,
}

// A position, and what is known after it was asked for.
#[derive(Clone, Copy)]
pub struct Located {
    pub pos: Pos,
    pub known: Cache,
}

// What a byte counts in a column: 0 from 128 to 191, where it goes on with a character, and 1 otherwise, by arithmetic on its
// quotient by 64, without a test.
#[tactic(auto, using(crate::proofs::Counting::by_quotient))]
fn unit(b: u8) -> u8
    ensures { result ≡ unit b }
{
    (3 * (b / 64) + 4) / 4 % 2
}

// How many characters start in some bytes. They are 255 at most, so that the sum fits a byte: the compiler then adds up 32 of
// them in one turn of the loop, where it adds up 8 with a sum of 32 bits.
fn count_part(part: &[u8]) -> u8
    requires { length part.now ≤ 255 }
    ensures { result ≡ count_chars one_each part.now 0 (length part.now) }
{
    let mut n = 0;
    for &b in part {
        n += unit(b);
    }
    n
}

// How many characters start in some bytes, however many those are, part by part.
fn count_parts(bytes: &[u8]) -> usize
    ensures { result ≡ count_chars one_each bytes.now 0 (length bytes.now) }
{
    let mut n = 0;
    for part in bytes.chunks(PART_LENGTH) {
        n += usize::from(count_part(part));
    }
    n
}

// The source's `count_chars`: how many characters start in the bytes from i up to j. Most counts are of a few bytes, one part,
// and are made without the loop over parts.
pub fn count_chars(text: &[u8], i: usize, j: usize) -> usize
    requires { j ≤ length text.now }
    ensures { result ≡ count_chars one_each text.now i (j - i) }
{
    if j <= i {
        return 0;
    }
    let bytes = &text[i..j];
    if bytes.len() < 32 {
        return usize::from(count_part(bytes));
    }
    count_parts(bytes)
}

// The offset asked for, with its column, by value. It counts on from the known offset, or from the line start where the
// known offset is past the one asked for.
fn column_from(text: &[u8], st: State, known: Cache, i: u32) -> Cache
    requires { Asked one_each text.now st known i }
    ensures { result ≡ column_at one_each text.now st i }
{
    let start = if i < known.off {
        Cache {
            off: st.bol,
            col: st.column,
        }
    } else {
        known
    };
    let n = count_chars(text, start.off as usize, i as usize);
    Cache {
        off: i,
        col: start.col + n as u32,
    }
}

// The source's `col_of`: it answers the column, and changes the cache in place. The counting is in `column_from`, by value.
fn col_of(text: &[u8], st: State, cache: &mut Cache, i: u32) -> u32
    requires { Asked one_each text.now st cache.old i }
    ensures { (result ≡ (column_at one_each text.now st i).col) × (cache.new ≡ column_at one_each text.now st i) }
{
    *cache = column_from(text, st, *cache, i);
    cache.col
}

// What is known once the column of i was asked for, from what was known. The one function that lends a cache: its
// parameters are plain.
pub fn known_after(text: &[u8], st: State, known: Cache, i: u32) -> Cache
    requires { Asked one_each text.now st known i }
    ensures { result ≡ column_at one_each text.now st i }
{
    let mut cache = known;
    col_of(text, st, &mut cache, i);
    cache
}

// The source's `pos_of`.
pub fn pos_of(text: &[u8], st: State, known: Cache, i: u32) -> Located
    requires { Asked one_each text.now st known i }
    ensures { result ≡ located text.now st i }
{
    let here = known_after(text, st, known, i);
    Located {
        pos: Pos {
            line: st.line,
            col: here.col,
        },
        known: here,
    }
}

// The lines of the listing, from the records of items. Proved: exactly the definition's `line` of each record is written,
// one after the other from the front of the lent buffer on, the rest of which keeps what it held, and the answer is their
// length. Assumed: nothing but what each function's `requires` says: the buffer has room for the longest line, 106 bytes,
// for each record.
#![tactic(auto)]

mod kind_names; // kind_names.rt: the kinds' names by number

ghost use Rattle.std.specs.Prelude.{◌≡◌, ◌∷◌, map, ◌≤◌, length, get_or};
ghost use Rattle.definition.specs.Basics.{ch};
ghost use Rattle.definition.specs.Numbers.{show};
ghost use Rattle.definition.specs.Item.{record_size};
ghost use Rattle.lemmas.specs.Over.{Wrote};
ghost use Rattle.listing_lines.specs.Line.{letter, shown, head, numbers, line, lines};
ghost use Rattle.listing_lines.specs.Writing.{line_most, Room};

use definition::RECORD;
use kind_names::name_into;
use number_value::decimals::show_into;

// The words that a line shows as numbers, in its order.
const SHOWN: [usize; 7] = [2, 3, 4, 5, 8, 9, 7];

// T for a token, C for a comment.
fn letter(sort: u32) -> u8
    ensures { result ≡ letter sort }
{
    if sort == 2 {
        return b'C';
    }
    b'T'
}

// Writes a blank and a number.
pub fn number_into(n: u32, out: &mut [u8]) -> usize
    requires { 11 ≤ length out.old }
    ensures { Wrote (ch " " ∷ show n) out.old out.new result × (result ≤ 11) }
{
    out[0] = b' ';
    1 + show_into(n, &mut out[1..])
}

// Writes the words that a line shows as numbers.
fn numbers_into(words: &[u32], out: &mut [u8]) -> usize
    requires { (record_size ≤ length words.now) × (77 ≤ length out.old) }
    ensures { Wrote (numbers (map (λ i. get_or words.now i 0) shown)) out.old out.new result × (result ≤ 77) }
{
    let mut at = 0;
    for i in SHOWN {
        at += number_into(words[i], &mut out[at..]);
    }
    at
}

// Writes what a line begins with: the letter, a blank and the kind's name.
fn head_into(words: &[u32], out: &mut [u8]) -> usize
    requires { (record_size ≤ length words.now) × (28 ≤ length out.old) }
    ensures { Wrote (head words.now) out.old out.new result × (result ≤ 28) }
{
    out[0] = letter(words[0]);
    out[1] = b' ';
    2 + name_into(words[1], &mut out[2..])
}

// Writes the line of a record.
fn line_into(words: &[u32], out: &mut [u8]) -> usize
    requires { (record_size ≤ length words.now) × (line_most ≤ length out.old) }
    ensures { Wrote (line words.now) out.old out.new result × (result ≤ line_most) }
{
    let named = head_into(words, out);
    let end = named + numbers_into(words, &mut out[named..]);
    out[end] = b'\n';
    end + 1
}

// Writes the lines of the first `count` records.
pub fn lines_into(records: &[u32], count: usize, out: &mut [u8]) -> usize
    requires { Room records.now count out.old }
    ensures { Wrote (lines count records.now) out.old out.new result }
{
    let mut at = 0;
    for record in records[..RECORD * count].chunks_exact(RECORD) {
        at += line_into(record, &mut out[at..]);
    }
    at
}

// The table of early literals, searched at an offset: one of the tables of words that `select` tries.
//
// Proved: the search answers what trying every word of the definition's table in turn gives, and each kind is the definition's.
// That the constants below are the definition's words is computed from its table.
// Assumed: nothing but what each function's `requires` says.
#![tactic(auto)]

ghost use Rattle.std.specs.Prelude.{◌≡◌, [], ◌<◌, get_or};
ghost use Rattle.definition.specs.Kinds.{kind};
ghost use Rattle.definition.specs.Tables.{early_literals, entry, words_of};
ghost use Rattle.definition.specs.Matchers.{match_lit};
ghost use Rattle.definition.specs.Select.{none_at, try_words};
ghost use Rattle.table_words.specs.Rows.{numbered, padded};
ghost use Rattle.table_early.specs.Pairs.{early_pair};

use chars::fixed::between;
use choice::{keep, nothing};
use definition::Choice;
use match_lit::byte_is;

// "Fixed literal tokens that come first": the words, padded to the longest, with their lengths and kinds, in the form that document 01
// names.
const EARLY: [[u8; 20]; 15] = [
    *b"%splice\0\0\0\0\0\0\0\0\0\0\0\0\0",
    *b"%splice_t\0\0\0\0\0\0\0\0\0\0\0",
    *b"`%\0\0\0\0\0\0\0\0\0\0\0\0\0\0\0\0\0\0",
    *b"`#\0\0\0\0\0\0\0\0\0\0\0\0\0\0\0\0\0\0",
    *b"`@\0\0\0\0\0\0\0\0\0\0\0\0\0\0\0\0\0\0",
    *b"seq![\0\0\0\0\0\0\0\0\0\0\0\0\0\0\0",
    *b"#show-options\0\0\0\0\0\0\0",
    *b"#set-options\0\0\0\0\0\0\0\0",
    *b"#reset-options\0\0\0\0\0\0",
    *b"#push-options\0\0\0\0\0\0\0",
    *b"#pop-options\0\0\0\0\0\0\0\0",
    *b"#restart-solver\0\0\0\0\0",
    *b"#print-effects-graph",
    *b"#check\0\0\0\0\0\0\0\0\0\0\0\0\0\0",
    *b"#eval\0\0\0\0\0\0\0\0\0\0\0\0\0\0\0",
];

const EARLY_LENGTHS: [usize; 15] = [7, 9, 2, 2, 2, 5, 13, 12, 14, 13, 12, 15, 20, 6, 5];

const EARLY_KINDS: [u32; 15] = [
    definition::kinds::SPLICE,
    definition::kinds::SPLICET,
    definition::kinds::BACKTICK_PERC,
    definition::kinds::BACKTICK_HASH,
    definition::kinds::BACKTICK_AT,
    definition::kinds::SEQ_BANG_LBRACK,
    definition::kinds::PRAGMA_SHOW_OPTIONS,
    definition::kinds::PRAGMA_SET_OPTIONS,
    definition::kinds::PRAGMA_RESET_OPTIONS,
    definition::kinds::PRAGMA_PUSH_OPTIONS,
    definition::kinds::PRAGMA_POP_OPTIONS,
    definition::kinds::PRAGMA_RESTART_SOLVER,
    definition::kinds::PRAGMA_PRINT_EFFECTS_GRAPH,
    definition::kinds::PRAGMA_CHECK,
    definition::kinds::PRAGMA_EVAL,
];

// Byte j of row k of the early literals.
fn early_byte(k: usize, j: usize) -> u8
    requires { (k < 15) × (j < 20) }
    ensures { result ≡ get_or (get_or (padded 20 (numbered 0 (words_of early_literals))) k []) j 0 }
{
    EARLY[k][j]
}

// Whether an early literal may begin with two bytes.
fn early_begins(a: u8, b: u8) -> bool
    ensures { result ≡ early_pair a b }
{
    if a == b's' {
        return b == b'e';
    }
    if a == b'#' {
        return between(b'a', b'z', b as u32);
    }
    if a == b'%' {
        return b == b's';
    }
    a == b'`'
}

// The longest of the early literals at i, each tried in turn.
fn longest_early(text: &[u8], i: usize) -> Choice
    ensures { result ≡ try_words i 1 (λ w. match_lit text.now w i) 0 (words_of early_literals) (none_at i) }
{
    let mut best = nothing(i);
    'words: for k in 0..15usize {
        let n = EARLY_LENGTHS[k];
        let mut end = i;
        for j in 0..n {
            if !byte_is(text, end, early_byte(k, j)) {
                continue 'words;
            }
            end += 1;
        }
        best = keep(
            best,
            Choice {
                place: 1,
                end,
                word: k,
            },
        );
    }
    best
}

// The longest of the early literals at i. Few bytes begin one, so the table is read only where two bytes may.
pub fn early_literal(text: &[u8], i: usize) -> Choice
    ensures { result ≡ try_words i 1 (λ w. match_lit text.now w i) 0 (words_of early_literals) (none_at i) }
{
    if text.len() <= i {
        return nothing(i);
    }
    if text.len() <= i + 1 {
        return nothing(i);
    }
    if early_begins(text[i], text[i + 1]) {
        return longest_early(text, i);
    }
    nothing(i)
}

pub fn early_kind(word: usize) -> u32
    requires { word < 15 }
    ensures { result ≡ kind (entry early_literals word).kind }
{
    EARLY_KINDS[word]
}

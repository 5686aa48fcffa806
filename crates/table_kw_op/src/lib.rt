// The table of keyword operators, searched at an offset: one of the tables of words that `select` tries.
//
// Proved: each search answers what trying every word of the definition's table in turn gives, and each kind is the
// definition's. That the constants below are the definition's words is computed from its table.
// Assumed: nothing but what each function's `requires` says: the table of operator characters where it is lent, and a number
// of the table's words where one is asked about.
#![tactic(auto)]

ghost use Rattle.std.specs.Prelude.{◌≡◌, [], ◌<◌, ◌≤◌, length, get_or, MatchOption, IfSome};
ghost use Rattle.definition.specs.Chars.{ascii_table, op_char_cps, is_op_char};
ghost use Rattle.definition.specs.Kinds.{kind};
ghost use Rattle.definition.specs.Tables.{cps, kw_op_words, kw_op_entry};
ghost use Rattle.definition.specs.Matchers.{◌then◌, match_lit, plus};
ghost use Rattle.definition.specs.Select.{none_at, try_words};
ghost use Rattle.table_words.specs.Rows.{numbered, padded, first_fit};
ghost use Rattle.table_kw_op.specs.KeywordReach.{Reach};

use choice::nothing;
use definition::Choice;
use match_lit::byte_is;
use star::tests::OpChar;
use star::{passes_at, plus_ascii};

// The words that operator characters may follow, with the kind of the word and that of the word with such characters, in the form that
// document 01 names.
const KW_OPS: [[u8; 6]; 9] = [
    *b"match\0",
    *b"if\0\0\0\0",
    *b"let\0\0\0",
    *b"exists",
    *b"\xe2\x88\x83\0\0\0",
    *b"forall",
    *b"\xe2\x88\x80\0\0\0",
    *b"and\0\0\0",
    *b";\0\0\0\0\0",
];

const KW_OP_LENGTHS: [usize; 9] = [5, 2, 3, 6, 3, 6, 3, 3, 1];

const KW_OP_PLAIN_KINDS: [u32; 9] = [
    definition::kinds::MATCH,
    definition::kinds::IF,
    definition::kinds::LET,
    definition::kinds::EXISTS,
    definition::kinds::EXISTS,
    definition::kinds::FORALL,
    definition::kinds::FORALL,
    definition::kinds::AND,
    definition::kinds::SEMICOLON,
];

const KW_OP_KINDS: [u32; 9] = [
    definition::kinds::MATCH_OP,
    definition::kinds::IF_OP,
    definition::kinds::LET_OP,
    definition::kinds::EXISTS_OP,
    definition::kinds::EXISTS_OP,
    definition::kinds::FORALL_OP,
    definition::kinds::FORALL_OP,
    definition::kinds::AND_OP,
    definition::kinds::SEMICOLON_OP,
];

// Byte j of row k of the keyword operators.
fn kw_op_byte(k: usize, j: usize) -> u8
    requires { (k < 9) × (j < 6) }
    ensures { result ≡ get_or (get_or (padded 6 (numbered 0 kw_op_words)) k []) j 0 }
{
    KW_OPS[k][j]
}

// The number of the first keyword-operator word that stands at i. No such word begins another.
pub fn kw_op_word(text: &[u8], i: usize) -> Option<usize>
    ensures { MatchOption result (first_fit text.now i (numbered 0 kw_op_words) ≡ 9) (λ k. (k ≡ first_fit text.now i (numbered 0 kw_op_words)) × (k < 9)) }
{
    'words: for k in 0..9usize {
        let n = KW_OP_LENGTHS[k];
        let mut end = i;
        for j in 0..n {
            if !byte_is(text, end, kw_op_byte(k, j)) {
                continue 'words;
            }
            end += 1;
        }
        return Some(k);
    }
    None
}

// How long the keyword-operator word is that begins with a byte of ASCII: each begins but one. Nothing for a byte that begins
// none, and for all bytes beyond ASCII, where such words are rare.
fn kw_op_reach(a: u8) -> Option<usize>
    ensures { IfSome result (Reach a) }
{
    match a {
        b'm' => Some(5),
        b'i' => Some(2),
        b'l' => Some(3),
        b'e' => Some(6),
        b'f' => Some(6),
        b'a' => Some(3),
        b';' => Some(1),
        _ => None,
    }
}

// A keyword-operator word at i with operator characters after it. Many identifiers begin with a letter that such a word
// begins with, and few of them have an operator character where it would end: only for those, and beyond ASCII, is the table
// read.
pub fn kw_op(text: &[u8], table: &[bool; 128], i: usize) -> Choice
    requires { table.now ≡ ascii_table op_char_cps }
    ensures { result ≡ try_words i 12 (λ w. match_lit text.now w i then plus is_op_char text.now) 0 kw_op_words (none_at i) }
{
    if text.len() <= i {
        return nothing(i);
    }
    if let Some(n) = kw_op_reach(text[i]) {
        if !passes_at(text, OpChar { table }, i + n) {
            return nothing(i);
        }
    }
    let Some(word) = kw_op_word(text, i) else {
        return nothing(i);
    };
    let Some(end) = plus_ascii(text, OpChar { table }, i + KW_OP_LENGTHS[word]) else {
        return nothing(i);
    };
    Choice {
        place: 12,
        end,
        word,
    }
}

// How long the word is.
pub fn kw_op_length(word: usize) -> usize
    requires { word < 9 }
    ensures { result ≡ length (cps (kw_op_entry word).word) }
{
    KW_OP_LENGTHS[word]
}

// The kind of the word by itself.
pub fn kw_op_plain_kind(word: usize) -> u32
    requires { word < 9 }
    ensures { result ≡ kind (kw_op_entry word).kind }
{
    KW_OP_PLAIN_KINDS[word]
}

// The kind of the word with operator characters after it.
pub fn kw_op_kind(word: usize) -> u32
    requires { word < 9 }
    ensures { result ≡ kind (kw_op_entry word).op_kind }
{
    KW_OP_KINDS[word]
}

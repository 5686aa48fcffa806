// Whole lexemes looked up by a key in the source's tables `keywords` and `uoperators`. The words of the source's three tables
// are numbered as one list, `keywords`, `constructors` and `uoperators` one after the other and each in its order. Most
// identifiers are no keyword, and fail a test before they are looked up (module `lengths`). What passes it, and an
// operator, is found by its key, from its first byte, its last byte and its length: of the words of a table with the same key,
// at most four, each is compared (crate `table_words`). The constructors need no key (module `constructors`).
//
// Proved: a look-up gives the place at which the definition's table has the lexeme, or says that it has it nowhere; and that is
// where the definition's `find` finds it (proofs/Finds.antt).
// Assumed: nothing but what each function's `requires` says.
#![tactic(auto)]

pub mod lengths; // lengths.rt: whether a lexeme may be a keyword, by its first byte and its length
pub mod constructors; // constructors.rt: constructors looked up by a whole lexeme
pub mod reserved_prefix; // reserved_prefix.rt: whether an identifier begins with the reserved prefix

ghost use Rattle.std.specs.Prelude.{◌≡◌};
ghost use Rattle.definition.specs.Tables.{keywords, uoperators};
ghost use Rattle.table_words.specs.Words.{spelled};
ghost use Rattle.table_keywords.specs.Places.{key, place, Chain, seek};

use crate::lengths::may_be_keyword;
use table_words::spellings::is_word;

// After each word, the next one with the same key; past the last word where there is none. Sixteen places to a row.
static NEXT: [u8; 119] = *b"\
    \x1f\x32\x4e\x08\x0d\x19\x38\x4a\x2c\x2d\x0e\x77\x54\x4b\x3b\x16\
    \x5d\x12\x77\x24\x1d\x77\x2b\x4d\x1e\x51\x20\x22\x23\x28\x52\x3f\
    \x50\x2a\x26\x77\x2e\x5a\x77\x77\x46\x77\x53\x6b\x77\x2f\x47\x35\
    \x39\x77\x58\x37\x77\x77\x74\x3d\x3a\x66\x77\x5e\x77\x59\x77\x77\
    \x76\x77\x62\x77\x77\x70\x77\x77\x77\x57\x5c\x64\x65\x67\x77\x77\
    \x77\x77\x77\x61\x77\x77\x77\x5b\x77\x77\x72\x6f\x6e\x68\x77\x6d\
    \x73\x77\x77\x77\x77\x77\x77\x77\x77\x6c\x77\x77\x77\x77\x77\x77\
    \x77\x77\x77\x77\x77\x77\x77\
";

// For each key, the first word of a table, or of those after it, that has it.
static KEYWORDS: [u8; 64] = *b"\
    \x77\x41\x42\x43\x44\x45\x55\x48\x02\x49\x07\x15\x04\x4c\x0c\x71\
    \x11\x17\x4f\x0b\x1a\x05\x1c\x14\x13\x18\x21\x03\x0f\x06\x10\x0a\
    \x09\x29\x31\x00\x3c\x33\x36\x75\x25\x3e\x77\x27\x1b\x01\x77\x77\
    \x30\x34\x77\x77\x77\x60\x77\x5f\x77\x63\x56\x6a\x69\x77\x77\x40\
";

static UOPERATORS: [u8; 64] = *b"\
    \x77\x77\x62\x77\x77\x70\x77\x77\x77\x5b\x5c\x77\x64\x65\x77\x71\
    \x77\x67\x77\x77\x77\x77\x77\x77\x77\x77\x61\x77\x6b\x77\x5d\x5e\
    \x77\x77\x77\x77\x77\x59\x74\x75\x5a\x77\x77\x77\x77\x77\x77\x77\
    \x66\x77\x77\x77\x77\x60\x77\x5f\x77\x63\x77\x6a\x69\x77\x77\x76\
";

// The key of a word.
fn key(id: &[u8]) -> usize
    ensures { result ≡ key id.now }
{
    if id.len() == 0 {
        return 0;
    }
    let first = id[0] as usize;
    let last = id[id.len() - 1] as usize;
    (first + last + id.len() % 64) % 64
}

// Follows the words with the lexeme's key from `start` on, up to the end of a table.
fn follow(id: &[u8], start: usize, stop: usize) -> Option<usize>
    requires { Chain id.now start stop }
    ensures { result ≡ seek id.now start stop }
{
    let mut k = start;
    while k < stop {
        if is_word(id, k) {
            return Some(k);
        }
        k = NEXT[k] as usize;
    }
    None
}

// The place of a keyword, the first of all words.
pub fn keyword(id: &[u8]) -> Option<usize>
    ensures { result ≡ place 0 id.now (spelled keywords) }
{
    if !may_be_keyword(id) {
        return None;
    }
    follow(id, KEYWORDS[key(id)] as usize, 86)
}

// The place of an operator in Unicode, after the constructors.
pub fn uoperator(id: &[u8]) -> Option<usize>
    ensures { result ≡ place 89 id.now (spelled uoperators) }
{
    follow(id, UOPERATORS[key(id)] as usize, 119)
}

// Whether a lexeme may be a keyword, by its first byte and its length. Most identifiers are no keyword: this settles four
// fifths of them. The lengths stand in a `match`, which the compiler makes a table of.
//
// Proved: each function is its definition in specs/Lengths.antt, and no keyword fails the test (`keywords_pass`,
// proofs/LengthLaws.antt).
// Assumed: nothing but what each function's `requires` says.
ghost use Rattle.std.specs.Prelude.{◌≡◌, ◌<◌};
ghost use Rattle.definition.specs.Tables.{keywords};
ghost use Rattle.table_words.specs.Words.{spelled};
ghost use Rattle.table_keywords.specs.Lengths.{lengths, may_be_keyword};

// How long the keywords are that begin with a byte of ASCII: a bit for each length.
fn lengths(first: u8) -> u32
    requires { first < 128 }
    ensures { result ≡ lengths first (spelled keywords) }
{
    match first {
        b'_' => 2,
        b'a' => 76,
        b'b' => 36,
        b'c' => 48,
        b'd' => 512,
        b'e' => 728,
        b'f' => 360,
        b'i' => 2100164,
        b'l' => 40,
        b'm' => 96,
        b'n' => 1560,
        b'o' => 84,
        b'p' => 128,
        b'q' => 32,
        b'r' => 2984,
        b's' => 5152,
        b't' => 56,
        b'u' => 1216,
        b'v' => 8,
        b'w' => 16,
        _ => 0,
    }
}

// Whether a lexeme may be a keyword, by its first byte and its length: no keyword fails this. Lexemes that begin beyond ASCII
// are rare, and pass.
pub fn may_be_keyword(id: &[u8]) -> bool
    ensures { result ≡ may_be_keyword id.now }
{
    if id.len() == 0 {
        return false;
    }
    if 31 < id.len() {
        return false;
    }
    if 128 <= id[0] {
        return true;
    }
    (lengths(id[0]) >> id.len()) % 2 == 1
}

// Single bytes, literals, the later of two ends, and a range cut where a comment begins in it.
//
// Proved: the answer of each function is what the definition gives, at any offset of any bytes.
// Assumed: nothing but, of `no_comment`, that its range lies in the text.
#![tactic(auto)]

ghost use Rattle.std.specs.Prelude.{◌≡◌, ◌&&◌, ◌||◌, ◌+◌, ◌≤◌, eqb, leb, length};
ghost use Rattle.definition.specs.Text.{byte_has, byte_is};
ghost use Rattle.definition.specs.Matchers.{◌then◌, later, match_lit, no_comment};

// The byte b stands at i.
#[tactic(auto, unfolding(definition::specs::Text::byte_has))]
pub fn byte_is(text: &[u8], i: usize, b: u8) -> bool
    ensures { result ≡ byte_is b text.now i }
{
    text.get(i) == Some(&b)
}

// A byte beyond ASCII stands at i.
#[tactic(auto, unfolding(definition::specs::Text::byte_has))]
pub fn beyond_ascii_at(text: &[u8], i: usize) -> bool
    ensures { result ≡ byte_has (λ b. leb 0x80 b) text.now i }
{
    text.get(i).is_some_and(|&b| 0x80 <= b)
}

// One of two bytes stands at i.
#[tactic(auto, unfolding(definition::specs::Text::byte_has))]
pub fn byte_either(text: &[u8], i: usize, a: u8, b: u8) -> bool
    ensures { result ≡ byte_has (λ c. eqb c a || eqb c b) text.now i }
{
    text.get(i).is_some_and(|&c| c == a || c == b)
}

// The byte a stands at i, and b at the offset after it.
pub fn byte_pair(text: &[u8], i: usize, a: u8, b: u8) -> bool
    ensures { result ≡ byte_is a text.now i && byte_is b text.now (i + 1) }
{
    byte_is(text, i, a) && byte_is(text, i + 1, b)
}

// The later of two ends; finding nothing is before every end.
pub fn later(a: Option<usize>, b: Option<usize>) -> Option<usize>
    ensures { result ≡ later a b }
{
    a.max(b)
}

// The end of a literal, which is matched byte by byte.
pub fn match_lit(text: &[u8], word: &[u8], i: usize) -> Option<usize>
    ensures { result ≡ match_lit text.now word.now i }
{
    let mut at = i;
    for b in word {
        if !byte_is(text, at, *b) {
            return None;
        }
        at += 1;
    }
    Some(at)
}

// The end of a literal after what another matcher found.
pub fn lit_after(text: &[u8], m: Option<usize>, word: &[u8]) -> Option<usize>
    ensures { result ≡ (m then match_lit text.now word.now) }
{
    match_lit(text, word, m?)
}

// The range from i to e cut at the first // in it.
pub fn no_comment(text: &[u8], i: usize, e: usize) -> usize
    requires { (i ≤ length text.now) × (e ≤ length text.now) }
    ensures { result ≡ no_comment text.now i e }
{
    for j in i..e.saturating_sub(1) {
        if byte_pair(text, j, b'/', b'/') {
            return j;
        }
    }
    e
}

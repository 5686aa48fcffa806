// Floats, reals, and numbers that go wrong. A digit of an integer or of a fraction is read once: what may follow them is
// looked for after their ends by the functions named `.._after`, which take these ends, and which `select` runs; the source's
// `match_floatp`, `match_real` and `match_bad_number` are the same from an offset.
//
// Proved: the answer of each public function is what the definition gives, at any offset of any bytes.
// Assumed: nothing but what each function's `requires` says: a class file that `class_check` accepts where a class is
// asked.
ghost use Rattle.std.specs.Prelude.{◌≡◌};
ghost use Rattle.definition.specs.ClassFile.{class_check};
ghost use Rattle.definition.specs.Chars.{is_ident_char};
ghost use Rattle.definition.specs.Matchers.{◌then◌, plus, match_floatp, skip_sign, match_real, match_bad_number};
ghost use Rattle.match_number.specs.FloatParts.{byte_end, fraction, real_end, short_exponent, short_float, bad_number_at_ends};

use crate::match_integer;
use match_lit::{byte_either, byte_is, later};
use star::tests::{Digit, IdentChar};
use star::{passes_at, plus_chars, star_ascii};

// ---- floats

// The end of the byte b after what another matcher found: a point after digits is the source's `floatp_min`.
#[tactic(auto, using(match_lit::proofs::ByteLaws::has_inside), unfolding(crate::specs::FloatParts::byte_end))]
fn byte_after(text: &[u8], m: Option<usize>, b: u8) -> Option<usize>
    ensures { result ≡ (m then byte_end b text.now) }
{
    let j = m?;
    if byte_is(text, j, b) {
        return Some(j + 1);
    }
    None
}

// The end of a point and digits after an integer's digits.
#[tactic(auto, unfolding(crate::specs::FloatParts::byte_end, crate::specs::FloatParts::fraction))]
pub fn floatp_after(text: &[u8], digits: Option<usize>) -> Option<usize>
    ensures { result ≡ (digits then fraction text.now) }
{
    let j = byte_after(text, digits, b'.')?;
    Some(star_ascii(text, Digit, j))
}

#[tactic(auto, unfolding(definition::specs::Matchers::match_floatp, crate::specs::FloatParts::fraction))]
pub fn match_floatp(text: &[u8], i: usize) -> Option<usize>
    ensures { result ≡ match_floatp text.now i }
{
    floatp_after(text, match_integer(text, i))
}

// The offset after an optional sign.
#[tactic(auto, using(match_lit::proofs::ByteLaws::has_inside), unfolding(definition::specs::Matchers::skip_sign))]
pub fn skip_sign(text: &[u8], k: usize) -> usize
    ensures { result ≡ skip_sign text.now k }
{
    if byte_either(text, k, b'+', b'-') {
        return k + 1;
    }
    k
}

// The end of an R after a float.
pub fn real_after(text: &[u8], float: Option<usize>) -> Option<usize>
    ensures { result ≡ (float then real_end text.now) }
{
    byte_after(text, float, b'R')
}

// Nothing calls it yet: request K7 asks for each place's own longest end.
#[tactic(auto, unfolding(definition::specs::Matchers::match_real, crate::specs::FloatParts::byte_end))]
pub fn match_real(text: &[u8], i: usize) -> Option<usize>
    ensures { result ≡ match_real text.now i }
{
    real_after(text, match_floatp(text, i))
}

// ---- numbers that go on as an identifier

// The end of the shortest exponent: e or E, an optional sign, and one digit.
#[tactic(auto, using(match_lit::proofs::ByteLaws::has_inside), unfolding(crate::specs::FloatParts::short_exponent, definition::specs::Matchers::is_e, definition::specs::Matchers::skip_sign))]
fn short_exponent(text: &[u8], k: usize) -> Option<usize>
    ensures { result ≡ short_exponent text.now k }
{
    if !byte_either(text, k, b'e', b'E') {
        return None;
    }
    let digit = skip_sign(text, k + 1);
    if passes_at(text, Digit, digit) {
        return Some(digit + 1);
    }
    None
}

fn short_exponent_after(text: &[u8], m: Option<usize>) -> Option<usize>
    ensures { result ≡ (m then short_exponent text.now) }
{
    short_exponent(text, m?)
}

// The end of the shortest float with an exponent, after an integer's digits or after the fraction there: the source's
// `floate_min`.
#[tactic(auto, unfolding(crate::specs::FloatParts::short_float))]
fn short_float(text: &[u8], digits: Option<usize>, float: Option<usize>) -> Option<usize>
    ensures { result ≡ short_float text.now digits float }
{
    let without_dot = short_exponent_after(text, digits);
    let with_dot = short_exponent_after(text, float);
    later(without_dot, with_dot)
}

// The end of the identifier characters after a number's end.
fn ident_chars_after(text: &[u8], file: &[u8], m: Option<usize>) -> Option<usize>
    requires { class_check file.now ≡ 0 }
    ensures { result ≡ (m then plus (is_ident_char file.now) text.now) }
{
    plus_chars(text, IdentChar { file }, m?)
}

// The end of a number with identifier characters after it, from the ends of its digits and of its fraction. "Since digits
// are ident chars, the shortest float matches are the relevant ones"; and since so are all characters of an integer with a
// letter, what goes on after it goes on after its 0.
#[tactic(auto, unfolding(crate::specs::FloatParts::bad_number_at_ends))]
pub fn bad_number_after(
    text: &[u8],
    file: &[u8],
    digits: Option<usize>,
    float: Option<usize>,
) -> Option<usize>
    requires { class_check file.now ≡ 0 }
    ensures { result ≡ bad_number_at_ends text.now file.now digits float }
{
    let mut end = ident_chars_after(text, file, short_float(text, digits, float));
    end = later(
        ident_chars_after(text, file, byte_after(text, digits, b'.')),
        end,
    );
    later(ident_chars_after(text, file, digits), end)
}

// Nothing calls it yet: request K7 asks for each place's own longest end.
pub fn match_bad_number(text: &[u8], file: &[u8], i: usize) -> Option<usize>
    requires { class_check file.now ≡ 0 }
    ensures { result ≡ match_bad_number text.now file.now i }
{
    let digits = match_integer(text, i);
    let float = floatp_after(text, digits);
    bad_number_after(text, file, digits, float)
}

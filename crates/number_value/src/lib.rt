// The values of numbers: of a digit, and whether a number is above 255.
// Proved: each public function answers what the definition's `digit_value` or `int_of_string` says, for numbers of any
// length.
// Assumed: nothing.
#![tactic(auto)]

pub mod cleaning; // cleaning.rt: what is left of a number without the letters of its prefixes and suffixes
pub mod decimals; // decimals.rt: the decimal digits of a number

ghost use Rattle.std.specs.Prelude.{◌≡◌, ltb};
ghost use Rattle.definition.specs.Numbers.{digit_value, base_of, value_from, int_of_string};
ghost use Rattle.number_value.specs.NumeralContracts.{Base};

// The largest number that fits a byte.
const LARGEST_BYTE: u32 = 255;

// The value of a digit of any base. Any other byte counts as a capital does, or 0 where it is below them all.
#[tactic(auto, unfolding(definition::specs::Numbers::digit_value), using(lemmas::proofs::Cases::all_tests))]
pub fn digit_value(b: u8) -> u32
    ensures { result ≡ digit_value b }
{
    match b {
        b'0'..=b'9' => u32::from(b - b'0'),
        b'a'..=b'f' => u32::from(b - b'a' + 10),
        _ => u32::from(b.saturating_sub(b'A' - 10)),
    }
}

// The base that the letter after a 0 names. 0 says that it names none, as the definition's `base_of` does.
#[tactic(auto, unfolding(definition::specs::Numbers::base_of), using(lemmas::proofs::Cases::all_tests))]
fn base_of(b: u8) -> u32
    ensures { result ≡ base_of b }
{
    match b {
        b'x' | b'X' => 16,
        b'o' | b'O' => 8,
        b'b' | b'B' => 2,
        _ => 0,
    }
}

// Whether digits make a number above 255. Once above it stays above, so that nothing wraps.
fn digits_above_255(digits: &[u8], base: u32) -> bool
    requires { Base base }
    ensures { result ≡ ltb 255 (value_from base 0 digits.now) }
{
    let mut n = 0;
    for &digit in digits {
        n = n * base + digit_value(digit);
        if LARGEST_BYTE < n {
            return true;
        }
    }
    false
}

// Whether the number that `U.int_of_string` of the source reads is above 255.
pub fn above_255(number: &[u8]) -> bool
    ensures { result ≡ ltb 255 (int_of_string number.now) }
{
    let [b'0', letter, digits @ ..] = number else {
        return digits_above_255(number, 10);
    };
    match base_of(*letter) {
        0 => digits_above_255(number, 10),
        base => digits_above_255(digits, base),
    }
}

// What may be chosen where a digit stands: the places that may begin with it, in place order, the earlier winning ties. An
// integer's digits are read once for all its suffixes, and a fraction's once for reals and bad numbers.
//
// Proved: the answer of `at_digit` is what the definition's matchers give at those places, at any offset within any bytes.
// Assumed: nothing but what each function's `requires` says: a class file that `class_check` accepts, and an integer's ends.
#![tactic(auto)]

ghost use Rattle.std.specs.Prelude.{◌≡◌};
ghost use Rattle.definition.specs.ClassFile.{class_check};
ghost use Rattle.definition.specs.Matchers.{later, match_int_suffix, match_int_usuffix};
ghost use Rattle.definition.specs.Select.{keep, found};
ghost use Rattle.match_number.specs.IntegerParts.{integer_ends};
ghost use Rattle.select_places.specs.Groups.{byte_integer, at_integers, at_digit};

use choice::attempts::try_place;
use definition::Choice;
use match_lit::later;
use match_number::floats::{bad_number_after, floatp_after, real_after};
use match_number::{IntegerEnds, any_integer_ends, suffix_after, usuffix_after};
use select_places::alone;

// The later of both ends of an integer.
fn latest(ends: IntegerEnds) -> Option<usize>
    ensures { result ≡ later ends.plain ends.based }
{
    let plain = ends.plain;
    let based = ends.based;
    later(plain, based)
}

// A place of an integer with a suffix, after other places.
fn try_suffix(
    best: Choice,
    text: &[u8],
    ends: IntegerEnds,
    suffix: &[u8],
    i: usize,
    place: u32,
) -> Choice
    requires { ends ≡ integer_ends text.now i }
    ensures { result ≡ keep best (found i place 0 (match_int_suffix text.now i suffix.now)) }
{
    try_place(best, i, place, suffix_after(text, ends, suffix))
}

// The same with a u before the suffix.
fn try_usuffix(
    best: Choice,
    text: &[u8],
    ends: IntegerEnds,
    suffix: &[u8],
    i: usize,
    place: u32,
) -> Choice
    requires { ends ≡ integer_ends text.now i }
    ensures { result ≡ keep best (found i place 0 (match_int_usuffix text.now i suffix.now)) }
{
    try_place(best, i, place, usuffix_after(text, ends, suffix))
}

// The end of an unsigned 8-bit integer, which z after the digits makes too.
fn byte_after(text: &[u8], ends: IntegerEnds, i: usize) -> Option<usize>
    requires { ends ≡ integer_ends text.now i }
    ensures { result ≡ byte_integer text.now i }
{
    later(
        usuffix_after(text, ends, b"y"),
        suffix_after(text, ends, b"z"),
    )
}

// An integer of each type, from its ends.
fn at_integers(text: &[u8], ends: IntegerEnds, i: usize) -> Choice
    requires { ends ≡ integer_ends text.now i }
    ensures { result ≡ at_integers text.now i }
{
    let mut best = alone(i, 16, latest(ends));
    best = try_place(best, i, 17, byte_after(text, ends, i));
    best = try_suffix(best, text, ends, b"y", i, 18);
    best = try_usuffix(best, text, ends, b"s", i, 19);
    best = try_suffix(best, text, ends, b"s", i, 20);
    best = try_usuffix(best, text, ends, b"l", i, 21);
    best = try_suffix(best, text, ends, b"l", i, 22);
    best = try_usuffix(best, text, ends, b"L", i, 23);
    best = try_suffix(best, text, ends, b"L", i, 24);
    try_suffix(best, text, ends, b"sz", i, 25)
}

// An integer, a real, or a number that goes on as an identifier.
pub fn at_digit(text: &[u8], file: &[u8], i: usize) -> Choice
    requires { class_check file.now ≡ 0 }
    ensures { result ≡ at_digit text.now file.now i }
{
    let ends = any_integer_ends(text, i);
    let digits = ends.plain;
    let float = floatp_after(text, digits);
    let mut best = at_integers(text, ends, i);
    best = try_place(best, i, 26, real_after(text, float));
    try_place(best, i, 27, bad_number_after(text, file, digits, float))
}

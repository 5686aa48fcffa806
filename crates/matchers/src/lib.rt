// The source's matchers of line ends, identifiers and constructors: from an offset of the text, the end of what is looked
// for, or that it isn't there. (Those of quotes are the module `quoted`, those of numbers the crate `match_number`; where
// `select` knows the first character, it reads on after it without `match_constructor`.)
//
// Proved: the answer of each function is what the definition gives, at any offset of any bytes.
// Assumed: nothing but what each function's `requires` says: a class file that `class_check` accepts where a class is
// asked.
#![tactic(auto)]

pub mod quoted; // quoted.rt: escapes, character literals, names in backticks

ghost use Rattle.std.specs.Prelude.{◌≡◌};
ghost use Rattle.definition.specs.ClassFile.{class_check};
ghost use Rattle.definition.specs.Matchers.{match_newline, match_ident, match_constructor};

use chars::fixed::is_newline_char;
use chars::{is_constructor_start, is_ident_start};
use definition::Sequence;
use match_lit::byte_is;
use star::star_chars;
use star::tests::IdentChar;
use utf8::sequence_at;

// The end of a line end: CR LF, or one of its four characters.
pub fn match_newline(text: &[u8], i: usize) -> Option<usize>
    ensures { result ≡ match_newline text.now i }
{
    let Sequence::Char(c, width) = sequence_at(text, i) else {
        return None;
    };
    if c == b'\r' as u32 && byte_is(text, i + 1, b'\n') {
        return Some(i + 2);
    }
    is_newline_char(c).then_some(i + width)
}

pub fn match_ident(text: &[u8], file: &[u8], i: usize) -> Option<usize>
    requires { class_check file.now ≡ 0 }
    ensures { result ≡ match_ident text.now file.now i }
{
    let Sequence::Char(c, width) = sequence_at(text, i) else {
        return None;
    };
    if is_ident_start(c) {
        return Some(star_chars(text, IdentChar { file }, i + width));
    }
    None
}

// Nothing calls it yet: request K7 asks for each place's own longest end.
pub fn match_constructor(text: &[u8], file: &[u8], i: usize) -> Option<usize>
    requires { class_check file.now ≡ 0 }
    ensures { result ≡ match_constructor text.now file.now i }
{
    let Sequence::Char(c, width) = sequence_at(text, i) else {
        return None;
    };
    if is_constructor_start(file, c) {
        return Some(star_chars(text, IdentChar { file }, i + width));
    }
    None
}

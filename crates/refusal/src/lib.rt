// What a run is refused for, in document 01's order: the text's length, the name's, the class file, ill-formed UTF-8, an
// unsound state; and then, by document 02, the second run for a second column that isn't sound, and for a line 0. Proved: the answers are
// the definition's `refusal` and `utf16_refusal`, for every input. Assumed: nothing.
#![tactic(auto)]

ghost use Rattle.std.specs.Prelude.{◌≡◌, ◌≤◌, length};
ghost use Rattle.definition.specs.Answers.{refusal_said};
ghost use Rattle.definition.specs.Run.{refusal};
ghost use Rattle.definition.specs.Utf16.{line_zero, utf16_refusal};
ghost use Rattle.refusal.specs.Refusing.{text_refusal};

use class_file::check::class_check;
use definition::answers::RunRefusal;
use definition::{State, Utf16State};
use state::{by_second, sound};
use utf8::characters::first_bad;

// The lengths up to which a text and a name are taken.
const LONGEST_TEXT: usize = 1048576;

const LONGEST_NAME: usize = 4096;

// The mode of a state inside a comment.
const IN_COMMENT: u32 = 1;

// The refusals that ask for the text's bytes, which is not too long.
fn text_refusal(text: &[u8], st: State) -> Result<(), RunRefusal>
    requires { length text.now ≤ 1048576 }
    ensures { refusal_said result ≡ text_refusal text.now st }
{
    let bad = first_bad(text);
    if bad < text.len() {
        return Err(RunRefusal::IllFormed { offset: bad as u32 });
    }
    if sound(text, st) {
        return Ok(());
    }
    Err(RunRefusal::UnsoundState)
}

// The first of the refusals that holds.
pub fn refusal(text: &[u8], name: &[u8], classes: &[u8], st: State) -> Result<(), RunRefusal>
    ensures { refusal_said result ≡ refusal text.now name.now classes.now st }
{
    if LONGEST_TEXT < text.len() {
        return Err(RunRefusal::TextLength);
    }
    if LONGEST_NAME < name.len() {
        return Err(RunRefusal::NameLength);
    }
    class_check(classes)?;
    text_refusal(text, st)
}

// Whether the state's line is 0, or in a comment the line where it began.
fn line_zero(g: Utf16State) -> bool
    ensures { result ≡ line_zero g }
{
    let first = g.first;
    if first.line == 0 {
        return true;
    }
    if first.mode == IN_COMMENT {
        return first.comment.line == 0;
    }
    false
}

// The same for the second run: first what the first run refuses; then a second column, which obeys every rule of the first; then a line 0.
pub fn utf16_refusal(
    text: &[u8],
    name: &[u8],
    classes: &[u8],
    g: Utf16State,
) -> Result<(), RunRefusal>
    ensures { refusal_said result ≡ utf16_refusal text.now name.now classes.now g }
{
    refusal(text, name, classes, g.first)?;
    if !sound(text, by_second(g)) {
        return Err(RunRefusal::UnsoundState);
    }
    if line_zero(g) {
        return Err(RunRefusal::LineZero);
    }
    Ok(())
}

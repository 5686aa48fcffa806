// `start`, and whether a saved state is sound; of both runs. Proved: all are the definition's, for every number. Assumed: nothing but
// what each function's `requires` says.
#![tactic(auto)]

ghost use Rattle.std.specs.Prelude.{◌≡◌};
ghost use Rattle.definition.specs.Answers.{start_said};
ghost use Rattle.definition.specs.State.{at_character, offsets_sound, counts_sound, depth_sound, comment_sound, sound, start, started, nine_zeros};
ghost use Rattle.definition.specs.Utf16.{by_second, utf16_start, utf16_zeros};

use definition::answers::StartRefusal;
use definition::{Pos, State, Utf16State};

// The largest line and the largest column that a start takes.
const LARGEST_LINE: u32 = 1000000;

const LARGEST_COLUMN: u32 = 1000000;

// The state at the beginning of a text, at a line and a column.
fn started(line: u32, column: u32) -> State
    ensures { result ≡ started line column }
{
    State {
        offset: 0,
        line,
        bol: 0,
        column,
        comments: 0,
        mode: 0,
        depth: 0,
        comment: Pos { line: 0, col: 0 },
    }
}

// Document 01's start, which refuses a line above 1,000,000, and then such a column.
pub fn start(line: u32, column: u32) -> Result<State, StartRefusal>
    ensures { start_said nine_zeros result ≡ start line column }
{
    if LARGEST_LINE < line {
        return Err(StartRefusal::Line);
    }
    if LARGEST_COLUMN < column {
        return Err(StartRefusal::Column);
    }
    Ok(started(line, column))
}

// The second run's start: the given column is in both columns of the line start.
pub fn utf16_start(line: u32, column: u32) -> Result<Utf16State, StartRefusal>
    ensures { start_said utf16_zeros result ≡ utf16_start line column }
{
    let first = start(line, column)?;
    Ok(Utf16State {
        first,
        column: first.column,
        comment: 0,
    })
}

// The nine numbers of the second run's saved state, with both second columns in the places of the first.
pub fn by_second(g: Utf16State) -> State
    ensures { result ≡ by_second g }
{
    State {
        column: g.column,
        comment: Pos {
            line: g.first.comment.line,
            col: g.comment,
        },
        ..g.first
    }
}

// Whether i stands on a character's first byte or on the text's end.
#[tactic(auto, unfolding(definition::specs::State::at_character, definition::specs::Position::is_continuation), using(lemmas::proofs::Cases::all_tests))]
fn at_character(text: &[u8], i: u32) -> bool
    ensures { result ≡ at_character text.now i }
{
    match text.get(i as usize) {
        Some(byte) => !matches!(byte, 0x80..=0xBF),
        None => i as usize == text.len(),
    }
}

// The offsets stand on characters, and the line start isn't past the offset.
#[tactic(auto, unfolding(definition::specs::State::offsets_sound), using(lemmas::proofs::Cases::all_tests))]
fn offsets_sound(text: &[u8], st: State) -> bool
    ensures { result ≡ offsets_sound text.now st }
{
    at_character(text, st.offset) && at_character(text, st.bol) && st.bol <= st.offset
}

// Line, line-start column, comments with depth, and mode are within their limits. The sums are of 64 bits, so that none wraps.
#[tactic(auto, unfolding(definition::specs::State::counts_sound), using(lemmas::proofs::Cases::all_tests))]
fn counts_sound(st: State) -> bool
    ensures { result ≡ counts_sound st }
{
    u64::from(st.line) <= 1000000 + u64::from(st.offset)
        && st.column <= 1000000
        && u64::from(st.comments) + u64::from(st.depth) <= u64::from(st.offset)
        && st.mode <= 2
}

// The depth and the comment start are as the mode has them.
#[tactic(auto, unfolding(definition::specs::State::depth_sound), using(lemmas::proofs::Cases::all_tests))]
fn depth_sound(st: State) -> bool
    ensures { result ≡ depth_sound st }
{
    if st.mode == 1 {
        1 <= st.depth
    } else {
        st.depth == 0 && st.comment.line == 0 && st.comment.col == 0
    }
}

// The comment start is no later than the line and within the columns that there are.
#[tactic(auto, unfolding(definition::specs::State::comment_sound), using(lemmas::proofs::Cases::all_tests))]
fn comment_sound(st: State) -> bool
    ensures { result ≡ comment_sound st }
{
    st.comment.line <= st.line && st.comment.col <= 2048576
}

// Document 01's sound state.
#[tactic(auto, unfolding(definition::specs::State::sound), using(lemmas::proofs::Cases::all_tests))]
pub fn sound(text: &[u8], st: State) -> bool
    ensures { result ≡ sound text.now st }
{
    offsets_sound(text, st) && counts_sound(st) && depth_sound(st) && comment_sound(st)
}

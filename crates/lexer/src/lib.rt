// Document 01's three operations, on numbers and lent buffers: `start`, `class_check` and `run`. A program that lexes calls
// these three and needs no other crate of the lexer but `definition`, which has their types. (`start` and `class_check` are those of
// crates `state` and `class_file`. Of a run, tokens that follow one another are written by `fast_path::write_tokens`, what that leaves by
// `run_turn::turn`.)
//
// Proved: for every input each answers as the definition says, and `run` leaves both buffers so, refusals included. What `run` promises,
// the three demands and document 02's K4, stands in specs/Promises.antt. Assumed: nothing.
#![tactic(auto)]

pub mod utf16; // utf16.rt: the second run, with an editor's positions: lines from 0, columns in UTF-16 units

ghost use Rattle.std.specs.Prelude.{◌≡◌};
ghost use Rattle.definition.specs.Answers.{start_said, check_said, ran_said, run_said};
ghost use Rattle.definition.specs.State.{start, nine_zeros};
ghost use Rattle.definition.specs.ClassFile.{class_check};
ghost use Rattle.definition.specs.Run.{run_items};
ghost use Rattle.laws_run.specs.Accepted.{Accepted};
ghost use Rattle.lexer.specs.Promises.{RefusedOrCounted, AsDefined, NoByteVanishes, LongestEverywhere};

use chars::ascii::{op_char_table, symbolchar_table};
use definition::State;
use definition::answers::{ClassRefusal, Ran, RunRefusal, StartRefusal};
use fast_path::write_tokens;
use position::Cache;
use reader::Cursor;
use refusal::refusal;
use run_turn::{TurnResult, turn};

// Document 01's start: the state at the beginning of a text, at a line and a column.
pub fn start(line: u32, column: u32) -> Result<State, StartRefusal>
    ensures { start_said nine_zeros result ≡ start line column }
{
    state::start(line, column)
}

// Document 01's class check: whether a run takes the class file, or why not.
pub fn class_check(file: &[u8]) -> Result<(), ClassRefusal>
    ensures { check_said result ≡ class_check file.now }
{
    class_file::check::class_check(file)
}

// The items of a run that isn't refused: tokens as long as they follow one another, and then the item that stands ahead.
fn run_items(
    text: &[u8],
    name: &[u8],
    classes: &[u8],
    st: State,
    records: &mut [u32],
    payload: &mut [u8],
) -> Ran<State>
    requires { Accepted text.now name.now classes.now st }
    ensures { (ran_said result, records.new, payload.new) ≡ run_items text.now name.now classes.now st records.old payload.old }
{
    let ops = op_char_table();
    let symbols = symbolchar_table();
    let known = Cache {
        off: st.bol,
        col: st.column,
    };
    let mut at = Cursor { st, known };
    let mut count: usize = 0;
    let mut used: usize = 0;
    loop {
        let written = write_tokens(
            text, classes, &ops, &symbols, at, count, used, records, payload,
        );
        let last = written.at;
        let here = written.here;
        let ahead = written.ahead;
        match turn(
            text,
            name,
            classes,
            last,
            here,
            ahead,
            written.count,
            written.used,
            records,
            payload,
        ) {
            TurnResult::Stop(stop) => {
                let state = last.st;
                return Ran {
                    stop,
                    count: written.count as u32,
                    state,
                };
            }
            TurnResult::Wrote { next, used: filled } => {
                at = next;
                used = filled;
                count = written.count + 1;
            }
        }
    }
}

// Document 01's run: a text's items from a saved state on, written into the lent buffers as far as they have room, or a refusal.
pub fn run(
    text: &[u8],
    name: &[u8],
    classes: &[u8],
    st: State,
    records: &mut [u32],
    payload: &mut [u8],
) -> Result<Ran<State>, RunRefusal>
    ensures refused_or_counted { RefusedOrCounted text.now name.now classes.now st records.old payload.old (run_said st result, records.new, payload.new) }
    ensures outcome { AsDefined text.now name.now classes.now st records.old payload.old (run_said st result, records.new, payload.new) }
    ensures nothing_lost { NoByteVanishes text.now name.now classes.now st (run_said st result) }
    ensures every_reading { LongestEverywhere text.now name.now classes.now st (run_said st result) }
{
    refusal(text, name, classes, st)?;
    Ok(run_items(text, name, classes, st, records, payload))
}

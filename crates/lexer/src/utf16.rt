// The second run, with the positions of an editor (document 02, K2): `start` and `run` whose lines count from 0 and whose columns count
// UTF-16 units. Its items are the first run's, and so are their payloads. (Each item is read by the first run's functions, and
// crate `utf16_turn` counts its positions again.)
//
// Proved: for every input each answers as the definition says, and `run` leaves both buffers so, refusals included. What `run` promises,
// the demands on the first run and that both give the same items, stands in specs/Utf16Promises.antt. Assumed: nothing.
ghost use Rattle.std.specs.Prelude.{◌≡◌};
ghost use Rattle.definition.specs.Answers.{start_said, ran_said, run_said};
ghost use Rattle.definition.specs.Utf16.{utf16_zeros, utf16_start, utf16_refusal, utf16_run};
ghost use Rattle.lexer.specs.Utf16Promises.{RefusedOrCounted, AsDefined, SameAsFirst, NoByteVanishes, LongestEverywhere};

use chars::ascii::{op_char_table, symbolchar_table};
use definition::Utf16State;
use definition::answers::{Ran, RunRefusal, StartRefusal};
use refusal::utf16_refusal;
use run_turn::TurnResult;
use utf16_turn::{cursor_at, turn};

// The state at the beginning of a text, at a line and a column: the line is the lexer's own, from 1, and the column is in both columns of
// the line start.
pub fn start(line: u32, column: u32) -> Result<Utf16State, StartRefusal>
    ensures { start_said utf16_zeros result ≡ utf16_start line column }
{
    state::utf16_start(line, column)
}

// The items of a run that isn't refused.
fn run_items(
    text: &[u8],
    name: &[u8],
    classes: &[u8],
    g: Utf16State,
    records: &mut [u32],
    payload: &mut [u8],
) -> Ran<Utf16State>
    requires { (utf16_refusal text.now name.now classes.now g).0 ≡ 0 }
    ensures { (ran_said result, records.new, payload.new) ≡ utf16_run text.now name.now classes.now g records.old payload.old }
{
    let ops = op_char_table();
    let symbols = symbolchar_table();
    let mut at = cursor_at(g);
    let mut count: usize = 0;
    let mut used: usize = 0;
    loop {
        match turn(
            text, name, classes, &ops, &symbols, at, count, used, records, payload,
        ) {
            TurnResult::Stop(stop) => {
                let state = at.state;
                return Ran {
                    stop,
                    count: count as u32,
                    state,
                };
            }
            TurnResult::Wrote { next, used: filled } => {
                at = next;
                used = filled;
                count += 1;
            }
        }
    }
}

// A text's items from a saved state on, written into the lent buffers as far as they have room, or a refusal.
pub fn run(
    text: &[u8],
    name: &[u8],
    classes: &[u8],
    g: Utf16State,
    records: &mut [u32],
    payload: &mut [u8],
) -> Result<Ran<Utf16State>, RunRefusal>
    ensures refused_or_counted { RefusedOrCounted text.now name.now classes.now g records.old payload.old (run_said g result, records.new, payload.new) }
    ensures outcome { AsDefined text.now name.now classes.now g records.old payload.old (run_said g result, records.new, payload.new) }
    ensures same_items { SameAsFirst text.now name.now classes.now g records.old payload.old (run_said g result, records.new, payload.new) }
    ensures nothing_lost { NoByteVanishes text.now name.now classes.now g (run_said g result) }
    ensures every_reading { LongestEverywhere text.now name.now classes.now g (run_said g result) }
{
    utf16_refusal(text, name, classes, g)?;
    Ok(run_items(text, name, classes, g, records, payload))
}

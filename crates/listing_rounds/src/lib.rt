// A listing by either run: a line for each item of standard input, and then END and the count of items; or REFUSED and the number of what
// refuses the text. The class file is classes.bin in the working directory; a missing one counts as a file of no bytes, which the class
// check refuses with 3. The name is `stdin`.
//
// Proved: it ends; each run is the definition's (crate `either_run`), and what it leaves in the buffer to be written are the definition's lines
// of its records, so that in all it is a line for each item (proofs/Whole.antt); the number after END is the count of all items, and
// REFUSED comes only where the first run is refused; a writer whose bytes are known takes just the lines of all items and the last line
// (`list`). Assumed: nothing. What the system gives to read, and takes of what is written, no contract says; a read or a write that
// fails ends the listing with its error.
#![tactic(auto)]

pub mod rounds; // rounds.rt: what a listing is lent, and what one of its runs gives

ghost use Rattle.std.specs.Prelude.{◌++◌, ◌<◌, ◌≤◌, length, codes, IfOk, OnOk};
ghost use Rattle.std.specs.Io.KnownBytes.{Appends};
ghost use Rattle.definition.specs.Tables.{cps};
ghost use Rattle.either_run.specs.Either.{either_run};
ghost use Rattle.listing_rounds.specs.Rounds.{AtFirst, Lent, Begun, Rounded, Ending, Ends, told, before_last, last_line};

use definition::answers::{RunRefusal, Stop};
use either_run::{Saved, answer_of, run};
use inputs::{class_buffer, read_classes, read_full, short_text_buffer};
use rounds::{Round, line_buffer, payload_buffer, record_buffer, round_of, too_long};
use std::fs::Files;
use std::io;
use std::io::Write;

// A line of a word and a number.
fn say<W: Write>(to: &mut W, word: &str, number: u64) -> io::Result<()>
    ensures { OnOk result (Appends (W.contents to.old) (W.contents to.new) (told word.now number)) }
{
    writeln!(to, "{word} {number}")
}

// Runs once, and makes lines of the items.
fn run_once(
    text: &[u8],
    classes: &[u8],
    from: Saved,
    records: &mut [u32],
    payload: &mut [u8],
    out: &mut [u8],
) -> Result<Round, u32>
    requires { Lent records.old payload.old out.old }
    ensures { Rounded (either_run text.now (cps "stdin") classes.now from records.old payload.old) out.old result out.new }
{
    let ran = run(text, b"stdin", classes, from, records, payload);
    round_of(answer_of(from, ran), records, out)
}

// Why a run stopped: it came to the end.
const AT_END: u32 = Stop::End as u32;

// Runs on from a state until the end, and writes the lines of each run at once. Only the first run can be refused, since the
// state that a run hands back is taken again. Each run but the last writes an item, since both buffers are free again and have
// room for any one item: so what is left to read falls with each run. It answers what refused the first run, or how many items
// are listed; the only error is the writer's own.
fn list_from<W: Write>(
    to: &mut W,
    text: &[u8],
    classes: &[u8],
    begun: Saved,
    records: &mut [u32],
    payload: &mut [u8],
    out: &mut [u8],
) -> io::Result<Result<u64, u32>>
    requires { Begun text.now begun × Lent records.old payload.old out.old }
    ensures ends { IfOk result (Ends text.now (cps "stdin") classes.now begun) }
    ensures lines { IfOk result (λ ending. Appends (W.contents to.old) (W.contents to.new) (before_last text.now (cps "stdin") classes.now begun ending)) }
{
    let mut from = begun;
    let mut listed: u64 = 0;
    loop {
        match run_once(text, classes, from, records, payload, out) {
            Err(refusal) => return Ok(Err(refusal)),
            Ok(
                Round {
                    bytes,
                    items,
                    stop,
                    next,
                },
            ) => {
                to.write_all(&out[..bytes])?;
                listed += items as u64;
                if stop == AT_END {
                    return Ok(Ok(listed));
                }
                from = next;
            }
        }
    }
}

// The last line.
fn say_ending<W: Write>(to: &mut W, ending: Result<u64, u32>) -> io::Result<()>
    ensures { OnOk result (Appends (W.contents to.old) (W.contents to.new) (last_line ending)) }
{
    match ending {
        Err(refusal) => say(to, "REFUSED", refusal as u64),
        Ok(items) => say(to, "END", items),
    }
}

// The lines of a text under a class file, and the last line. The only error is the writer's own.
pub fn list<W: Write>(to: &mut W, text: &[u8], classes: &[u8], begun: Saved) -> io::Result<()>
    requires { AtFirst begun }
    ensures long { 60000 < length text.now → OnOk result (Appends (W.contents to.old) (W.contents to.new) (told (codes "REFUSED") 6)) }
    ensures listed { length text.now ≤ 60000 → OnOk result ((ending : Ending) × Ends text.now (cps "stdin") classes.now begun ending
        × Appends (W.contents to.old) (W.contents to.new) (before_last text.now (cps "stdin") classes.now begun ending ++ last_line ending)) }
{
    if too_long(text.len()) {
        return say_ending(to, Err(RunRefusal::TextLength.number()));
    }
    let mut records = record_buffer();
    let mut payload = payload_buffer();
    let mut out = line_buffer();
    let ending = list_from(
        to,
        text,
        classes,
        begun,
        &mut records,
        &mut payload,
        &mut out,
    )?;
    say_ending(to, ending)
}

// The lines of standard input, by the run of which the state is. The only errors are those of reading and of writing.
pub fn list_input<R: Files + Input + Print>(rt: &R, begun: Saved) -> io::Result<()>
    requires { AtFirst begun }
{
    let mut text = short_text_buffer();
    let mut file = class_buffer();
    let mut input = rt.reader();
    let length = read_full(&mut input, &mut text)?;
    let size = read_classes(rt, &mut file)?;
    list(&mut io::writer(rt), &text[..length], &file[..size], begun)
}

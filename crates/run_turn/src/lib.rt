// One turn of a run: the item that stands ahead is read, and written where it fits.
//
// Proved: a turn does to the buffers what the definition's turn of a run says, and answers why it stopped or where reading
// goes on. proofs/RunLaws.antt has the laws of a run that goes on, turn by turn.
// Assumed: nothing but what each function's `requires` says: the run was not refused, it stands between two items
// (`Between`), what stands ahead was found there (`StandsAhead`), and an item that is written fits (`ItemFits`).
#![tactic(auto)]

ghost use Rattle.std.specs.Prelude.{◌≡◌};
ghost use Rattle.definition.specs.Item.{words};
ghost use Rattle.definition.specs.Run.{put, run_turn};
ghost use Rattle.reader.specs.Described.{bytes_of};
ghost use Rattle.run_turn.specs.Running.{writing, Ran, Between, StandsAhead, ItemFits};

use definition::RECORD;
use definition::answers::Stop;
use lookahead::NextItem;
use payload_write::write;
use reader::{Cursor, Read, length_of};
use record::write_record;
use step::read;

// How many numbers have to be free for one more record.
const NEEDED: usize = RECORD;

// What a turn of a run did: it stopped, or it wrote an item, after which reading goes on from `next` with so many payload bytes
// used. C is where a run stands between two items; the second run stands elsewhere than the first (crate `utf16_turn`). (To stop is no
// error, as in a Result, and leaves no function early, as in the library's ControlFlow.)
#[derive(Clone, Copy)]
pub enum TurnResult<C> {
    Stop(Stop),
    Wrote { next: C, used: usize },
}

// Writes an item: its payload from byte `used` on, its record from number `first` on.
fn write_item(
    text: &[u8],
    name: &[u8],
    classes: &[u8],
    r: Read,
    first: usize,
    used: usize,
    records: &mut [u32],
    payload: &mut [u8],
)
    requires { ItemFits text.now name.now classes.now r first used records.old payload.old }
    ensures { (records.new ≡ put records.old first (words r.item used)) × (payload.new ≡ put payload.old used (bytes_of text.now name.now classes.now r.payload)) }
{
    let item = r.item;
    let bytes = r.payload;
    write(text, name, classes, bytes, &mut payload[used..]);
    write_record(item, used as u32, &mut records[first..]);
}

// One turn: it stops at the end, where no record fits, and where the next payload doesn't; else an item is written.
// The run stands at `at`, and after white space, at `here`, stands what is ahead.
pub fn turn(
    text: &[u8],
    name: &[u8],
    classes: &[u8],
    at: Cursor,
    here: Cursor,
    ahead: NextItem,
    count: usize,
    used: usize,
    records: &mut [u32],
    payload: &mut [u8],
) -> TurnResult<Cursor>
    requires { Between text.now name.now classes.now at count used records.old payload.old × StandsAhead text.now name.now classes.now at here ahead }
    ensures { Ran text.now (run_turn text.now name.now classes.now (writing at count used records.old payload.old)) count at.st result records.new payload.new }
{
    let st = at.st;
    let ended = st.mode == 2;
    if ended {
        return TurnResult::Stop(Stop::End);
    }
    let first = RECORD * count;
    if records.len() - first < NEEDED {
        return TurnResult::Stop(Stop::RecordsFull);
    }
    let r = read(text, name, classes, here, ahead);
    let bytes = r.payload;
    let size = length_of(name, bytes);
    if payload.len() - used < size {
        return TurnResult::Stop(Stop::PayloadFull);
    }
    write_item(text, name, classes, r, first, used, records, payload);
    let next = r.next;
    let known = r.known;
    TurnResult::Wrote {
        next: Cursor { st: next, known },
        used: used + size,
    }
}

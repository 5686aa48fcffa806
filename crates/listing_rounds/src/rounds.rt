// The rounds of a listing: what it is lent, and what one run, a round, gives.
// Proved: what a round leaves in the buffer to be written are the definition's lines of its run's records, so that in all it is
// a line for each item (proofs/Whole.antt), and each round but the last lists an item (proofs/RunsOn.antt); the buffers are as
// long as they are said to be. Assumed: nothing but what each function's `requires` says.
ghost use Rattle.std.specs.Prelude.{◌≡◌, ◌*◌, ltb, length};
ghost use Rattle.definition.specs.Item.{record_size};
ghost use Rattle.listing_lines.specs.Writing.{Room};
ghost use Rattle.either_run.specs.Either.{numbers};
ghost use Rattle.listing_rounds.specs.Rounds.{Told};

use definition::RECORD;
use either_run::{Answer, Saved};
use inputs::buffer;
use listing_lines::lines_into;

// Whether a text of so many bytes is too long to be listed.
pub fn too_long(bytes: usize) -> bool
    ensures { result ≡ ltb 60000 bytes }
{
    60000 < bytes
}

// The numbers of the records of 1,024 items.
pub const RECORDS: usize = 1024 * RECORD;

pub fn record_buffer() -> [u32; RECORDS]
    ensures { 1024 * record_size ≡ length result }
{
    buffer(0)
}

// The bytes of their lines, of which none has more than 106.
pub const LINES: usize = 108544;

pub fn line_buffer() -> [u8; LINES]
    ensures { 108544 ≡ length result }
{
    buffer(0)
}

// The bytes of payloads. Any payload of a listed text fits: none has more than four bytes for each byte of the text and a hundred
// (an unclosed comment has two bytes more than the text has of it, `__FILELINE__` the name and the line).
pub const PAYLOAD: usize = 262144;

pub fn payload_buffer() -> [u8; PAYLOAD]
    ensures { 262144 ≡ length result }
{
    buffer(0)
}

// What one run gave that wasn't refused: the lines of its items at the front of the buffer, the number that says why it stopped, and the
// state to run on from.
#[derive(Clone, Copy)]
pub struct Round {
    pub bytes: usize,
    pub items: u32,
    pub stop: u32,
    pub next: Saved,
}

// Makes lines of the items of a run that answered so and left such records; the number of a refusal is handed on. The answer is taken in
// numbers, and any numbers are: this function promises nothing less of those that no run gives.
pub fn round_of(answer: Answer, records: &[u32], out: &mut [u8]) -> Result<Round, u32>
    requires { answer.refusal ≡ 0 → Room records.now answer.count out.old }
    ensures { Told (numbers answer) records.now out.old result out.new }
{
    if answer.refusal != 0 {
        return Err(answer.refusal);
    }
    Ok(Round {
        bytes: lines_into(records, answer.count as usize, out),
        items: answer.count,
        stop: answer.stop,
        next: answer.state,
    })
}

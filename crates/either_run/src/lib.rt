// A run of either kind: document 01's, whose positions count characters, or document 02's second run (K2), whose positions count UTF-16
// units. The saved state says which.
//
// Proved: for every input it answers what the definition's run of that kind does, and leaves both buffers so (specs/Either.antt); and what
// a start or a run answers, as a Result, is turned into the numbers that the definition gives for it.
// Assumed: nothing.
#![tactic(auto)]

ghost use Rattle.std.specs.Prelude.{◌≡◌};
ghost use Rattle.definition.specs.Answers.{start_said, run_said};
ghost use Rattle.definition.specs.State.{nine_zeros};
ghost use Rattle.definition.specs.Utf16.{utf16_zeros};
ghost use Rattle.either_run.specs.Either.{either_run, start_numbers, first_start, second_start, numbers};

use definition::answers::{Ran, RunRefusal, StartRefusal};
use definition::{State, Utf16State};

// The saved state of a run whose positions count characters, or UTF-16 units.
#[derive(Clone, Copy)]
pub enum Saved {
    Characters(State),
    Utf16(Utf16State),
}

// What a start answers, in document 01's numbers: a refusal's number with a state of zeros, or 0 with the state.
#[derive(Clone, Copy)]
pub struct Started {
    pub refusal: u32,
    pub state: Saved,
}

// The numbers of what the first run's start answered.
pub fn start_of(begun: Result<State, StartRefusal>) -> Started
    ensures { start_numbers result ≡ first_start (start_said nine_zeros begun) }
{
    match begun {
        Ok(state) => Started {
            refusal: 0,
            state: Saved::Characters(state),
        },
        Err(refusal) => Started {
            refusal: refusal.number(),
            state: Saved::Characters(State::default()),
        },
    }
}

// Those of the second run's.
pub fn utf16_start_of(begun: Result<Utf16State, StartRefusal>) -> Started
    ensures { start_numbers result ≡ second_start (start_said utf16_zeros begun) }
{
    match begun {
        Ok(state) => Started {
            refusal: 0,
            state: Saved::Utf16(state),
        },
        Err(refusal) => Started {
            refusal: refusal.number(),
            state: Saved::Utf16(Utf16State::default()),
        },
    }
}

// What a run answers, in document 01's numbers. Any may stand in it: who lists or prints an answer takes them as they are.
#[derive(Clone, Copy)]
pub struct Answer {
    pub refusal: u32,
    pub offset: u32,
    pub stop: u32,
    pub count: u32,
    pub state: Saved,
}

// The numbers of what a run from a saved state answered: a refusal hands that state back, with no items and stop 0.
pub fn answer_of(from: Saved, ran: Result<Ran<Saved>, RunRefusal>) -> Answer
    ensures { numbers result ≡ run_said from ran }
{
    match ran {
        Ok(ran) => Answer {
            refusal: 0,
            offset: 0,
            stop: ran.stop.number(),
            count: ran.count,
            state: ran.state,
        },
        Err(refusal) => Answer {
            refusal: refusal.number(),
            offset: refusal.offset(),
            stop: 0,
            count: 0,
            state: from,
        },
    }
}

// A text's items from a saved state on, written into the lent buffers as far as they have room, or a refusal.
pub fn run(
    text: &[u8],
    name: &[u8],
    classes: &[u8],
    from: Saved,
    records: &mut [u32],
    payload: &mut [u8],
) -> Result<Ran<Saved>, RunRefusal>
    ensures { (run_said from result, records.new, payload.new) ≡ either_run text.now name.now classes.now from records.old payload.old }
{
    match from {
        Saved::Characters(state) => {
            let ran = lexer::run(text, name, classes, state, records, payload)?;
            Ok(Ran {
                stop: ran.stop,
                count: ran.count,
                state: Saved::Characters(ran.state),
            })
        }
        Saved::Utf16(state) => {
            let ran = lexer::utf16::run(text, name, classes, state, records, payload)?;
            Ok(Ran {
                stop: ran.stop,
                count: ran.count,
                state: Saved::Utf16(ran.state),
            })
        }
    }
}

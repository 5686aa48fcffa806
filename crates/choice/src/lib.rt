// The best choice so far: none yet, or that of two which ends later.
//
// Proved: both functions are the definition's, `none_at` and `keep`.
// Assumed: nothing.
#![tactic(auto)]

pub mod attempts; // attempts.rt: a place of `select`, or a word of a table, tried after others: the source's `try_`

ghost use Rattle.std.specs.Prelude.{◌≡◌};
ghost use Rattle.definition.specs.Select.{none_at, keep};

use definition::Choice;

// Nothing is chosen yet.
pub fn nothing(i: usize) -> Choice
    ensures { result ≡ none_at i }
{
    Choice {
        place: 0,
        end: i,
        word: 0,
    }
}

// The new choice if it ends later, or else the best so far.
#[tactic(auto, unfolding(definition::specs::Select::keep))]
pub fn keep(best: Choice, new: Choice) -> Choice
    ensures { result ≡ keep best new }
{
    if best.end < new.end {
        return new;
    }
    best
}

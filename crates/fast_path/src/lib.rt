// The tokens of a run that follow one another, each written from its action (module `puts`). Nearly all items are such tokens,
// and what is handed from function to function for an item costs more than the token.
//
// Proved: after the tokens what is still to come of the run is what was to come before them, whatever the file's name is (no
// token that is written here has it in its payload: the contract asks with the empty name and promises for every one), and
// what stands ahead there is said (`WritesTokens`). Where no record fits nothing is written: it has only looked ahead, which is what the
// second run asks it for (crate `utf16_turn`). That as many tokens as possible are written is not promised: what is left, a turn writes.
// Assumed: nothing but what `write_tokens`'s `requires` says: the run was not refused and stands between two items, and the
// tables of operator and of symbol characters are lent.
#![tactic(auto)]

pub mod puts; // puts.rt: a token written from its action

ghost use Rattle.std.specs.Prelude.{◌≡◌, []};
ghost use Rattle.select.specs.Standing.{Lent};
ghost use Rattle.run_turn.specs.Running.{Between};
ghost use Rattle.fast_path.specs.TokensWritten.{WritesTokens};

use crate::puts::put_action;
use definition::RECORD;
use lookahead::{Lookahead, NextItem, look};
use position::columns::AsciiRun;
use reader::Cursor;
use rules::ruled;

// After a run's tokens: where the run stands, and what stands ahead, after white space at `here`.
#[derive(Clone, Copy)]
pub struct TokensWritten {
    pub at: Cursor,
    pub here: Cursor,
    pub ahead: NextItem,
    pub count: usize,
    pub used: usize,
}

// Writes the tokens that stand one after the other from `start` on, between comments, until something else stands ahead, a
// token whose payload is no short one among it, or a buffer is full.
pub fn write_tokens(
    text: &[u8],
    classes: &[u8],
    ops: &[bool; 128],
    symbols: &[bool; 128],
    start: Cursor,
    begun: usize,
    filled: usize,
    records: &mut [u32],
    bytes: &mut [u8],
) -> TokensWritten
    requires { Between text.now [] classes.now start begun filled records.old bytes.old × Lent classes.now ops.now symbols.now }
    ensures { WritesTokens text.now classes.now start begun filled records.old bytes.old result records.new bytes.new }
{
    let st = start.st;
    if st.mode != 0 {
        return TokensWritten {
            at: start,
            here: start,
            ahead: NextItem::InComment,
            count: begun,
            used: filled,
        };
    }
    let mut at = start;
    let mut count = begun;
    let mut used = filled;
    let mut plain = AsciiRun { from: 0, to: 0 };
    loop {
        match look(text, classes, ops, symbols, at) {
            Lookahead::Reader { here, choice, rule } => {
                return TokensWritten {
                    at,
                    here,
                    ahead: NextItem::ByReader { choice, rule },
                    count,
                    used,
                };
            }
            Lookahead::Action { here, choice, rule } => {
                let action = ruled(text, here, choice, rule);
                let first = RECORD * count;
                match put_action(text, here, action, first, used, plain, records, bytes) {
                    None => {
                        let end = choice.end;
                        return TokensWritten {
                            at,
                            here,
                            ahead: NextItem::ByAction { end, action },
                            count,
                            used,
                        };
                    }
                    Some(token) => {
                        at = token.next;
                        used = token.used;
                        plain = token.plain;
                        count += 1;
                    }
                }
            }
        }
    }
}

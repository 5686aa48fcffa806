// What a rule says of a choice that is read whole: a token, an error, or a line's comment. An action is small and is made
// before any position is asked for (crates `rule_words`, `rule_numbers`, `rule_operators`, `rule_table`); what it
// says is written from it where it fits (crate `fast_path`) or carried out (crate `rules`), so that nothing large is handed from
// rule to rule.
//
// There is no code here. What an action stands for, and what carrying it out asks for, is said in specs/Actions.antt. Proved
// (in proofs/): which actions stand for a rule's token, error or line comment (ActionLaws), what a token up to a choice's end
// asks for (Spanning), that a token or an error that is built from its positions is the definition's (ActionBuilding), and that a
// part of a slice is a lexeme (Parts). Assumed: nothing.
use crate::Payload;

#[derive(Clone, Copy)]
pub enum Action {
    // A token whose position is that of byte `start` and that ends at byte `end`. It is read from where the choice was made.
    Token {
        kind: u32,
        start: usize,
        end: usize,
        payload: Payload,
    },
    // An error over what was chosen.
    Error {
        number: u32,
        payload: Payload,
    },
    // A line's comment: nothing is left of what was chosen.
    LineComment,
}

// What a choice leads to: the rule and the kind of each of the 50 places, and the tokens that a place and a word decide.
//
// Proved: the rule and the kind of a place are those that specs/Rules.antt and specs/Plain.antt list (that the rules do what
// the definition's do is proved in crate `rules`), and what a place and a word decide is what the definition's rule gives,
// where the choice was made (`Chose`) and the file's name is short enough.
// Assumed: nothing but what each function's `requires` says: the place is one of the 50 or 0, and the word one of its table.
#![tactic(auto)]

pub mod table; // table.rt: the rule and the kind of each place
pub mod plain; // plain.rt: tokens that their places and words decide

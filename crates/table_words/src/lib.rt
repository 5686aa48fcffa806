// The words of the definition's tables: whether a lexeme is one of them (the module below), and the laws of words that are
// tried in turn, which need no code. Proved (in proofs/): what trying every word of a table gives is
// what trying some of its rows gives where the others can't stand in the text, and what is read of a table of padded bytes is
// the word's byte. Assumed: nothing.
#![tactic(auto)]

pub mod spellings; // spellings.rt: whether a word of the tables of keywords, constructors and Unicode operators is a lexeme

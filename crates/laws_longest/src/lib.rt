// No code: the law that the choice of the definition is the longest. Proved (in proofs/): at every boundary of a legal text, and for
// every class file, `select` takes the longest part that any of the 50 patterns permits, and of those the one of the earliest place;
// and the longest end of each place by itself, defined in specs/LongestEnd.antt, is that of its pattern.
// Assumed: nothing.
#![tactic(auto)]

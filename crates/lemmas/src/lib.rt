// Laws that speak of no lexer, for the proofs of every layer: choices by a test, the definition's loops, a fact for each
// element of a list, parts of lists, a number among those of a list, buffers that are written over. There is no code here.
// It stands on `definition` for three things alone: the laws have to name the `loop`, the `mem_cp` and
// the `Option` that the definition goes by.
#![tactic(auto)]

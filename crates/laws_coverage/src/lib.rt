// No code: document 02's K4, "no byte can vanish". Defined (in specs/): what the definition's reading of a text takes, turn by turn, made
// from the very turns that `run` makes, and what is promised of it (Coverage); the same in document 02's words, over the records of runs
// (Records). Proved (in proofs/): from every sound state that hasn't ended, up to the text's end or to the first byte of the choice that
// failed, each byte is counted once, in the span of an item or in what the white, line-end or `// IN F*:` rule took (Law); the spans are
// those in the records, however runs are split (Records); and on a table of texts what is taken is computed (Cases). Assumed: nothing.
#![tactic(auto)]

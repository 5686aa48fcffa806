// No code: the laws that the definition's matchers and choices move on. Proved (in proofs/): every matcher and every choice ends past its
// start, within the text and on a character, and the loops of the matchers never run out of fuel. Assumed: nothing.
#![tactic(auto)]

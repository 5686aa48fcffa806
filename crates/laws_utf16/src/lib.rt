// No code: document 02's K2, the laws of the second run. Defined (in specs/): what it has in common with the first run (Same), what it is
// given where it isn't refused (Accepted), what it has written, and runs one after another (Written). Proved (in proofs/): it gives the
// same items, and each of its positions is that of the same place by the weight `utf16` (SameItems); it writes whole items, and however
// runs are split they write the same (Runs); a state that it hands back is never refused, with 9 or with 10 (Runs). Assumed: nothing.
#![tactic(auto)]

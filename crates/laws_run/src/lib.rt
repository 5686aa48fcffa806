// No code: the laws of runs. Proved (in proofs/): what every step of the definition keeps, one record (`Kept`, Forms) by one walk over the
// readers and the rules (CommentReader, StringReader, BlobReader, Rules, Steps): it moves on within the text or ends the reading, from a
// sound state it comes to a sound state, its payload stays within a budget, far below 2^32 bytes over a run, whatever buffer is lent, and
// its record says how long the payload is. So no fuel of the definition runs out (Fuel). Where a step gives its item (Choosing), where the
// item's bytes begin and end (ItemSpans), and where its positions stand and on which lines (Places). A run that isn't refused was given a
// sound state (Refusals); at each of its reading positions the choice is the longest and moves on, and error 6 is given exactly where it is
// none of the places: demand 3 (Demand3), which alone decides the choice at positions of sample texts (SampleReadings). And document 01's
// laws for runs (Laws): a run that isn't refused hands back a sound state; what it wrote are steps of the definition, one after another,
// and the rest of both buffers is what it was; it stops for the reason that its answer gives; and runs split by small buffers write the
// same items as one run does. Assumed: nothing.
#![tactic(auto)]

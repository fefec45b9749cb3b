// No code: specs/ says what the export of a board is, what exporting answers and writes, and what a reader makes of an export; proofs/ what
// follows of it: an export reads back as the main items. Paper: request (xi).
#![tactic(auto)]

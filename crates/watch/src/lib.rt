// No code: specs/ says what a watcher's notes are and which of them is the first that disagrees with a board; proofs/ what follows of the
// answer and of the cuts behind the noted items. Paper: request (vi).
#![tactic(auto)]

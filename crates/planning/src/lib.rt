// No code: specs/ says what the plan of a board is, read off its heads; proofs/ how it relates to the audit, and that its blocks are those
// of the standard's padding. Paper: request (x).
#![tactic(auto)]

// No code: specs/ has the rules on sets and the audit as they were before request (v), and the audit as it was before request (ix), when
// there was one curve; proofs/ that a board without a traits word, and one that is not of a larger curve, gets the same answer.
#![tactic(auto)]

// The samples of the paper, as one table and one statement, in proofs/. No code.
#![tactic(auto)]

// No code: specs/ says what one more item just before the closing word does to what the audit answers and writes; proofs/ that the audit
// does so, for every board that it accepts. Paper: request (xiii).
#![tactic(auto)]

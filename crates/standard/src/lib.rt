// No code: theorems that hold the definitions of the hashes to what FIPS 180-4 says of its tables, which are roots of primes, to NIST's
// examples for it and to vectors of the CAVP.
#![tactic(auto)]

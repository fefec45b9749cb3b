// What the hashes of FIPS 180-4 have in common: the rounds of a block, the blocks of a message, a running hash, and words copied into a
// block; and laws of rotations, of rounds and of feeding (proofs/).
#![tactic(auto)]

pub mod compression;
pub mod message;

ghost use Rattle.std.specs.Prelude.{◌≡◌, ◌+◌, ◌≤◌, length};
ghost use Rattle.sha2_common.specs.State.{stored};

// Stores the words s in b from the place at on.
pub fn store(b: &mut [u32], at: usize, s: &[u32])
    requires { at + length s.now ≤ length b.old }
    ensures { b.new ≡ stored b.old at s.now }
{
    // of a piece there is often nothing to store, and a copy of nothing is a call
    if s.is_empty() {
        return;
    }
    b[at..at + s.len()].copy_from_slice(s);
}

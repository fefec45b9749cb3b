// Test messages, as words, and places to cut them at.
ghost use Rattle.std.specs.Prelude.{◌≡◌, ◌≤◌};
ghost use Rattle.vectors.specs.Messages.{counting, within};

use std::array;

// The words whose bytes count up from 0, and again from 0 behind 255: 65 of them, one more than two blocks of SHA-512 hold.
pub fn counting_words() -> [u32; 65]
    ensures { result ≡ counting 65 }
{
    array::from_fn(|i| 0x0001_0203 + (i % 64) as u32 * 0x0404_0404)
}

// A place to cut at: c, but no earlier than from and no later than end.
#[tactic(auto, unfolding(crate::specs::Messages::within))]
pub fn within(c: usize, from: usize, end: usize) -> usize
    requires { from ≤ end }
    ensures { (result ≡ within c from end) × (from ≤ result) × (result ≤ end) }
{
    c.clamp(from, end)
}

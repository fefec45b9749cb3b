// The whole blocks of a message, hashed where they stand (FIPS 180-4, 6.2.2).
#![tactic(auto)]

ghost use Rattle.std.specs.Prelude.{◌≡◌};
ghost use Rattle.sha256_blocks.specs.Blocks.{hash_over};

use sha256_block::functions::Sha256;

// The hash value h after the whole blocks of s, each read where it stands. The constants and the room for the schedule are
// made once for all of them.
pub fn compress_blocks(h: [u32; 8], s: &[u32]) -> [u32; 8]
    ensures { result ≡ hash_over h s.now }
{
    let k = sha256_block::K;
    let mut w = [0u32; 64];
    sha2_common::message::compress_blocks::<Sha256, 64, 16>(h, s, &k, &mut w)
}

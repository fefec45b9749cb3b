// The whole blocks of a message, hashed where they stand (FIPS 180-4, 6.4.2).
#![tactic(auto)]

ghost use Rattle.std.specs.Prelude.{◌≡◌};
ghost use Rattle.sha512_blocks.specs.Blocks.{hash_over};

use sha512_block::functions::Sha512;

// The hash value h after the whole blocks of s, each read where it stands. The constants and the room for the schedule are
// made once for all of them.
pub fn compress_blocks(h: [u64; 8], s: &[u32]) -> [u64; 8]
    ensures { result ≡ hash_over h s.now }
{
    let k = sha512_block::constants();
    let mut w = [0u64; 80];
    sha2_common::message::compress_blocks::<Sha512, 80, 32>(h, s, &k, &mut w)
}

// The functions of FIPS 180-4, 3.2 and 4.1.3, on words of 64 bits. Those of 4.1.3 have forms that take fewer
// instructions than the standard's, which their contracts name: x ^ y rotated is x rotated ^ y rotated, and two
// rotations are one by the sum of their amounts.
ghost use Rattle.std.specs.Prelude.{◌≡◌, ◌<◌};
ghost use Rattle.sha512_block.specs.Fips as fips;
ghost use Rattle.sha512_block.specs.Equations.{sha512_functions};

use sha2_common::compression::Functions;

// Kept: with u64::rotate_right in its place the compiler makes two words of the schedule at once, and a message takes 8 % longer.
fn rotr(x: u64, n: u64) -> u64
    requires { (0 < n) × (n < 64) }
    ensures { result ≡ fips.rotr n x }
{
    (x >> n) | (x << (64 - n))
}

// SHA-384 and SHA-512, for what is the same in all hashes of the standard.
pub struct Sha512;

impl Functions for Sha512 {
    type Word = u64;

    ghost functions = { sha512_functions };

    fn add(x: u64, y: u64) -> u64 {
        x.wrapping_add(y)
    }

    fn ch(x: u64, y: u64, z: u64) -> u64 {
        ((y ^ z) & x) ^ z
    }

    // In the rounds x ^ y is what the next round has as y ^ z, so that it is made once.
    fn maj(x: u64, y: u64, z: u64) -> u64 {
        ((x ^ y) & (y ^ z)) ^ y
    }

    fn big_sigma0(x: u64) -> u64 {
        rotr(x ^ rotr(x ^ rotr(x, 5), 6), 28)
    }

    fn big_sigma1(x: u64) -> u64 {
        rotr(x ^ rotr(x ^ rotr(x, 23), 4), 14)
    }

    fn small_sigma0(x: u64) -> u64 {
        rotr(x ^ rotr(x, 7), 1) ^ (x >> 7)
    }

    fn small_sigma1(x: u64) -> u64 {
        rotr(x ^ rotr(x, 42), 19) ^ (x >> 6)
    }

    // The two halves of the word, the higher first.
    fn block_word(m: &[u32], t: usize) -> u64 {
        let at = t * 2;
        u64::from(m[at]) * 0x1_0000_0000 + u64::from(m[at + 1])
    }
}

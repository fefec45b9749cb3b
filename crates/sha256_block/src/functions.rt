// The functions of FIPS 180-4, 3.2 and 4.1.2, on words of 32 bits. Those of 4.1.2 have forms that take fewer
// instructions than the standard's, which their contracts name: x ^ y rotated is x rotated ^ y rotated, and two
// rotations are one by the sum of their amounts.
ghost use Rattle.std.specs.Prelude.{◌≡◌, ◌<◌};
ghost use Rattle.sha256_block.specs.Fips as fips;
ghost use Rattle.sha256_block.specs.Equations.{sha256_functions};

use sha2_common::compression::Functions;

fn rotr(x: u32, n: u32) -> u32
    requires { (0 < n) × (n < 32) }
    ensures { result ≡ fips.rotr n x }
{
    x.rotate_right(n)
}

// SHA-256, for what is the same in all hashes of the standard.
pub struct Sha256;

impl Functions for Sha256 {
    type Word = u32;

    ghost functions = { sha256_functions };

    fn add(x: u32, y: u32) -> u32 {
        x.wrapping_add(y)
    }

    fn ch(x: u32, y: u32, z: u32) -> u32 {
        ((y ^ z) & x) ^ z
    }

    // In the rounds x ^ y is what the next round has as y ^ z, so that it is made once.
    fn maj(x: u32, y: u32, z: u32) -> u32 {
        ((x ^ y) & (y ^ z)) ^ y
    }

    fn big_sigma0(x: u32) -> u32 {
        rotr(x ^ rotr(x ^ rotr(x, 9), 11), 2)
    }

    fn big_sigma1(x: u32) -> u32 {
        rotr(x ^ rotr(x ^ rotr(x, 14), 5), 6)
    }

    fn small_sigma0(x: u32) -> u32 {
        rotr(x ^ rotr(x, 11), 7) ^ (x >> 3)
    }

    fn small_sigma1(x: u32) -> u32 {
        rotr(x ^ rotr(x, 2), 17) ^ (x >> 10)
    }

    fn block_word(m: &[u32], t: usize) -> u32 {
        m[t]
    }
}

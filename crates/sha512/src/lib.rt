// SHA-384 and SHA-512 of FIPS 180-4 for messages of whole 32-bit words, at once or in pieces.
#![tactic(auto)]

ghost use Rattle.std.specs.Prelude.{◌≡◌, ◌+◌, ◌/◌, ◌%◌, ◌^◌, ◌<◌, ◌≤◌, length, take, [], ◌∷◌, ◌++◌};
ghost use Rattle.sha512_block.specs.Fips.{padding, hash_words, to_halves, sha384_words, sha512_words};
ghost use Rattle.sha512_blocks.specs.Blocks.{sha512_function, hash_over};
ghost use Rattle.sha512_blocks.proofs.Blocks.{thirty_two};
ghost use Rattle.sha512.specs.State.{fresh384, fresh512, fed, ended, digest384_of, digest512_of};

use sha2_common::message::{Blocks, Running};

// A running hash. SHA-384 and SHA-512 differ in where it begins and in what is taken of it in the end: who begins one and takes the
// other gets what the contracts say, which is neither.
#[derive(Clone, Copy)]
pub struct Hash {
    running: Running<u64, 32>,
}

impl Blocks<32> for Hash {
    type Word = u64;

    ghost step = { sha512_function.compress };

    ghost padding = { sha512_function.padding };

    ghost sized = { thirty_two };

    fn compress_blocks(h: [u64; 8], s: &[u32]) -> [u64; 8]
        ensures { result ≡ hash_over h s.now }
    {
        sha512_blocks::compress_blocks(h, s)
    }
}

impl Hash {
    // Nothing fed yet, for SHA-384.
    pub fn new384() -> Self
        ensures { result ≡ fresh384 }
    {
        Hash {
            running: Running {
                chain: sha512_block::start384(),
                block: [0; 32],
                count: 0,
            },
        }
    }

    // Nothing fed yet, for SHA-512.
    pub fn new512() -> Self
        ensures { result ≡ fresh512 }
    {
        Hash {
            running: Running {
                chain: sha512_block::start512(),
                block: [0; 32],
                count: 0,
            },
        }
    }

    // Feeds the words of a slice in order: whole blocks are read where they stand in s.
    pub fn words(mut self, s: &[u32]) -> Self
        requires { self.running.count + length s.now < 2 ^ 64 }
        ensures { result ≡ fed self s.now }
    {
        self.running = self.running.words::<Hash>(s);
        self
    }

    // Feeds a word.
    pub fn word(mut self, w: u32) -> Self
        requires { self.running.count + 1 < 2 ^ 64 }
        ensures { result ≡ fed self (w ∷ []) }
    {
        self = self.words(&[w]);
        self
    }

    // The hash value after the words that were fed and their padding.
    fn end(self) -> [u64; 8]
        ensures { result ≡ ended self }
    {
        last_blocks(
            self.running.chain,
            &self.running.block[..self.running.count % 32],
            self.running.count,
        )
    }

    // The SHA-384 digest of the words that were fed: the first six words of the hash value.
    pub fn finish384(self) -> [u32; 12]
        ensures { result ≡ digest384_of self }
    {
        halves::<12>(self.end())
    }

    // The SHA-512 digest of the words that were fed.
    pub fn finish512(self) -> [u32; 16]
        ensures { result ≡ digest512_of self }
    {
        halves::<16>(self.end())
    }
}

// The hash value h after the words left over behind the whole blocks of a message of n words, and the padding. The last block or two are
// put together at once: those words, the bit 1, zeros, and the length in bits, of whose four words the first is zero (5.1.2).
// Kept beside `finish` of sha256: the length is other words at other places, and a generic function would share three lines.
fn last_blocks(h: [u64; 8], left: &[u32], n: usize) -> [u64; 8]
    requires { length left.now ≡ n % 32 }
    ensures { result ≡ hash_over h (left.now ++ padding n) }
{
    let at = n % 32;
    let end = (at + 36) / 32 * 32;
    let mut m = [0u32; 64];
    sha2_common::store(&mut m, 0, left);
    m[at] = 0x8000_0000;
    m[end - 3] = (n / 0x0800_0000_0000_0000) as u32;
    m[end - 2] = (n / 0x0800_0000 % 0x1_0000_0000) as u32;
    m[end - 1] = (n % 0x0800_0000 * 32) as u32;
    sha512_blocks::compress_blocks(h, &m[..end])
}

// A digest of D words of 32 bits, for the hash value h: the halves of its first words, all of them for SHA-512, six for SHA-384 (6.5).
fn halves<const D: usize>(h: [u64; 8]) -> [u32; D]
    requires { (D % 2 ≡ 0) × (D ≤ 16) }
    ensures { result ≡ to_halves (take (D / 2) h) }
{
    let mut d = [0u32; D];
    for i in 0..D / 2 {
        d[i * 2] = (h[i] / 0x1_0000_0000) as u32;
        d[i * 2 + 1] = (h[i] % 0x1_0000_0000) as u32;
    }
    d
}

// The hash value of a message that is there whole, from start on. No running hash is made: copying it would take a short message a tenth
// longer.
fn hash_words(start: [u64; 8], words: &[u32]) -> [u64; 8]
    ensures { result ≡ hash_words start words.now }
{
    let n = words.len();
    let end = n / 32 * 32;
    let h = sha512_blocks::compress_blocks(start, &words[..end]);
    last_blocks(h, &words[end..], n)
}

// The SHA-384 digest of a message.
pub fn digest384(words: &[u32]) -> [u32; 12]
    ensures { result ≡ sha384_words words.now }
{
    halves::<12>(hash_words(sha512_block::start384(), words))
}

// The SHA-512 digest of a message.
pub fn digest512(words: &[u32]) -> [u32; 16]
    ensures { result ≡ sha512_words words.now }
{
    halves::<16>(hash_words(sha512_block::start512(), words))
}

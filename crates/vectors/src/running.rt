// The running hashes, by one trait for the three of them, and what is fed to one: a word over and over, or a message in pieces.
ghost use Rattle.std.specs.Prelude.{◌≡◌, ℕ, ◌+◌, ◌-◌, ◌*◌, ◌^◌, ◌<◌, ◌≤◌, List, [], ◌∷◌, length, take, drop, replicate};
ghost use Rattle.std.proofs.Common.{lit≤};
ghost use Rattle.sha2_common.specs.Blocks.{HashFunction};
ghost use Rattle.sha2_common.specs.State.{Running, fed, Holds};
ghost use Rattle.sha2_common.proofs.Places.{Sized};
ghost use Rattle.sha256_block.specs.Fips.{H0, sha256_words};
ghost use Rattle.sha256_blocks.specs.Blocks.{sha256_function};
ghost use Rattle.sha256_blocks.proofs.Blocks.{sixteen};
ghost use Rattle.sha512_block.specs.Fips.{H0-384, H0-512, sha384_words, sha512_words};
ghost use Rattle.sha512_blocks.specs.Blocks.{sha512_function};
ghost use Rattle.sha512_blocks.proofs.Blocks.{thirty_two};
ghost use Rattle.sha256.specs.State as sha256;
ghost use Rattle.sha512.specs.State as sha512;
ghost use Rattle.vectors.specs.Feeding.{Fed};

use crate::{lines, messages};
use std::io;

// A running hash, whose digests have N words.
pub trait RunningHash<const N: usize> {
    // What it computes block by block, and from which H(0) on; what a value of it holds; the number of words that a message has fewer than;
    // and the digest of a message.
    ghost function: { HashFunction };

    ghost start: { List ℕ };

    ghost state: { Self → Running };

    ghost limit: { ℕ };

    ghost digest_of: { List ℕ → List ℕ };

    // Nothing fed yet.
    fn new() -> Self
        ensures { Holds function start (state result) [] };

    // Feeds a word.
    fn word(self, w: u32) -> Self
        requires { (state self).count + 1 < limit }
        ensures { state result ≡ fed function (state self) (w ∷ []) };

    // Feeds the words of a slice in order.
    fn words(self, s: &[u32]) -> Self
        requires { (state self).count + length s.now < limit }
        ensures { state result ≡ fed function (state self) s.now };

    // The digest of the words that were fed.
    fn finish(self) -> [u32; N]
        requires { (state self).count < limit }
        ensures { (m : List ℕ) → Holds function start (state self) m → result ≡ digest_of m };

    // The digest of a message.
    fn digest(words: &[u32]) -> [u32; N]
        requires { length words.now < limit }
        ensures { result ≡ digest_of words.now };

    ghost sized: { Sized function };

    ghost small: { N ≤ 16 };
}

// The hashes of the library, each by what it begins with and what it gives in the end.
#[derive(Clone, Copy)]
pub struct Sha256(sha256::Hash);

#[derive(Clone, Copy)]
pub struct Sha384(sha512::Hash);

#[derive(Clone, Copy)]
pub struct Sha512(sha512::Hash);

impl RunningHash<8> for Sha256 {
    ghost function = { sha256_function };

    ghost start = { H0 };

    ghost state = { λ h. sha256.running h.0 };

    ghost limit = { 2 ^ 59 };

    ghost digest_of = { sha256_words };

    ghost sized = { sixteen };

    ghost small = { lit≤ tt };

    fn new() -> Sha256 {
        Sha256(sha256::Hash::new())
    }

    fn word(self, w: u32) -> Sha256 {
        Sha256(self.0.word(w))
    }

    fn words(self, s: &[u32]) -> Sha256 {
        Sha256(self.0.words(s))
    }

    fn finish(self) -> [u32; 8] {
        self.0.finish()
    }

    fn digest(words: &[u32]) -> [u32; 8] {
        sha256::digest(words)
    }
}

impl RunningHash<12> for Sha384 {
    ghost function = { sha512_function };

    ghost start = { H0-384 };

    ghost state = { λ h. sha512.running h.0 };

    ghost limit = { 2 ^ 64 };

    ghost digest_of = { sha384_words };

    ghost sized = { thirty_two };

    ghost small = { lit≤ tt };

    fn new() -> Sha384 {
        Sha384(sha512::Hash::new384())
    }

    fn word(self, w: u32) -> Sha384 {
        Sha384(self.0.word(w))
    }

    fn words(self, s: &[u32]) -> Sha384 {
        Sha384(self.0.words(s))
    }

    fn finish(self) -> [u32; 12] {
        self.0.finish384()
    }

    fn digest(words: &[u32]) -> [u32; 12] {
        sha512::digest384(words)
    }
}

impl RunningHash<16> for Sha512 {
    ghost function = { sha512_function };

    ghost start = { H0-512 };

    ghost state = { λ h. sha512.running h.0 };

    ghost limit = { 2 ^ 64 };

    ghost digest_of = { sha512_words };

    ghost sized = { thirty_two };

    ghost small = { lit≤ tt };

    fn new() -> Sha512 {
        Sha512(sha512::Hash::new512())
    }

    fn word(self, w: u32) -> Sha512 {
        Sha512(self.0.word(w))
    }

    fn words(self, s: &[u32]) -> Sha512 {
        Sha512(self.0.words(s))
    }

    fn finish(self) -> [u32; 16] {
        self.0.finish512()
    }

    fn digest(words: &[u32]) -> [u32; 16] {
        sha512::digest512(words)
    }
}

// The hash, to which nothing was fed yet, after n times the word w, fed one at a time.
fn feed_repeated<const N: usize, H: RunningHash<N>>(mut h: H, w: u32, n: usize) -> H
    requires begun { (H.state h).count ≡ 0 }
    requires room { n < H.limit }
    ensures { Fed H.function (H.state h) (replicate n w) (H.state result) }
{
    for _ in 0..n {
        h = h.word(w);
    }
    h
}

// The hash, to which nothing was fed yet, after the words, fed in pieces: they are cut at the places given, in their order. A place that
// is not behind the one before it makes an empty piece, and so does one past the end. Whatever the places, the words are fed.
fn feed_pieces<const N: usize, H: RunningHash<N>>(mut h: H, words: &[u32], places: &[usize]) -> H
    requires begun { (H.state h).count ≡ 0 }
    requires room { length words.now < H.limit }
    ensures { Fed H.function (H.state h) words.now (H.state result) }
{
    let mut from = 0;
    for place in places {
        let to = messages::within(*place, from, words.len());
        h = h.words(&words[from..to]);
        from = to;
    }
    h.words(&words[from..])
}

// The digest of n times the word w.
pub fn repeated<const N: usize, H: RunningHash<N>>(w: u32, n: usize) -> [u32; N]
    requires { n < H.limit }
    ensures { result ≡ H.digest_of (replicate n w) }
{
    feed_repeated::<N, H>(H::new(), w, n).finish()
}

// The digest of the words, fed in pieces: that of the words, whatever the places.
pub fn in_pieces<const N: usize, H: RunningHash<N>>(words: &[u32], places: &[usize]) -> [u32; N]
    requires { length words.now < H.limit }
    ensures { result ≡ H.digest_of words.now }
{
    feed_pieces::<N, H>(H::new(), words, places).finish()
}

// A line for the words, named by a kind and their number.
pub fn show<const N: usize, H: RunningHash<N>, R: Print>(
    rt: &R,
    kind: &[u8],
    words: &[u32],
) -> io::Result<()>
    requires { length words.now < H.limit }
{
    lines::show(rt, kind, words.len(), &H::digest(words))
}

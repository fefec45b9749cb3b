// A message of whole words of 32 bits: its blocks, hashed where they stand, and the words of a running hash, for any hash of the standard.
ghost use Rattle.std.specs.Prelude.{◌≡◌, ℕ, ◌+◌, ◌%◌, ◌^◌, ◌<◌, ◌≤◌, List, length};
ghost use Rattle.sha2_common.specs.Blocks.{hash_of, by_rounds, hash_over};
ghost use Rattle.sha2_common.specs.Sizes.{IsSize};
ghost use Rattle.sha2_common.specs.State.{running, fed};

use crate::compression::{Functions, compress};

// The hash value h after the whole blocks of s, of S words each, by N rounds. The constants k and the room w for the schedule are the
// caller's.
pub fn compress_blocks<F: Functions, const N: usize, const S: usize>(
    h: [F::Word; 8],
    s: &[u32],
    k: &[F::Word; N],
    w: &mut [F::Word; N],
) -> [F::Word; 8]
    requires { (k.now ≡ F.functions.constants) × (length w.old ≡ N) × (16 ≤ N) × (N % 4 ≡ 0) × (F.functions.size ≡ S) × IsSize S }
    ensures { result ≡ hash_over (by_rounds F.functions N) h s.now }
{
    let mut r = h;
    for m in s.chunks_exact(S) {
        r = compress::<F, N>(r, m, k, w);
    }
    r
}

// How a hash of the standard takes whole blocks, of S words each.
pub trait Blocks<const S: usize> {
    type Word: Copy;

    // The hash value after a block, and what follows a message of n words.
    ghost step: { List Self.Word → List ℕ → List Self.Word };

    ghost padding: { ℕ → List ℕ };

    // The hash value h after the whole blocks of s.
    fn compress_blocks(h: [Self::Word; 8], s: &[u32]) -> [Self::Word; 8]
        ensures { result ≡ hash_over (hash_of S step padding) h s.now };

    ghost sized: { IsSize S };
}

// A running hash: the chaining words, the block that is not full yet, and the number of words fed so far. Only as many words
// of the block as that number modulo S mean something.
#[derive(Clone, Copy)]
pub struct Running<W, const S: usize> {
    pub chain: [W; 8],
    pub block: [u32; S],
    pub count: usize,
}

impl<W: Copy, const S: usize> Running<W, S> {
    // Words that the block has room for, no block of their own: they are stored in it, and it is hashed where they fill it.
    fn fill<H: Blocks<S, Word = W>>(mut self, s: &[u32]) -> Self
        requires s_bound { (self.count % S + length s.now ≤ S) × (length s.now < S) }
        requires s_bound_2 { self.count + length s.now < 2 ^ 64 }
        ensures { running result ≡ fed (hash_of S H.step H.padding) (running self) s.now }
    {
        let at = self.count % S;
        let n = s.len();
        crate::store(&mut self.block, at, s);
        self.count += n;
        if at + n == S {
            self.chain = H::compress_blocks(self.chain, &self.block);
        }
        self
    }

    // Whole blocks, where the block in hand is empty: it stays as it is, and they are read where they stand in s.
    fn blocks<H: Blocks<S, Word = W>>(mut self, s: &[u32]) -> Self
        requires count_value { (self.count % S ≡ 0) × (length s.now % S ≡ 0) }
        requires s_bound { self.count + length s.now < 2 ^ 64 }
        ensures { running result ≡ fed (hash_of S H.step H.padding) (running self) s.now }
    {
        self.chain = H::compress_blocks(self.chain, s);
        self.count += s.len();
        self
    }

    // Feeds the words of a slice in order. Those that fill the block up and those left over behind the last whole block are
    // stored in it; whole blocks between are read where they stand in s. Which memory is read, no contract can say; this one
    // says that of the whole blocks no word is left in the block.
    pub fn words<H: Blocks<S, Word = W>>(mut self, s: &[u32]) -> Self
        requires { self.count + length s.now < 2 ^ 64 }
        ensures { running result ≡ fed (hash_of S H.step H.padding) (running self) s.now }
    {
        let missing = (S - self.count % S) % S;
        let n = s.len();
        if n < missing {
            return self.fill::<H>(s);
        }
        let end = missing + (n - missing) / S * S;
        self = self.fill::<H>(&s[..missing]);
        self = self.blocks::<H>(&s[missing..end]);
        self = self.fill::<H>(&s[end..]);
        self
    }
}

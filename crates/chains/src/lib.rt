// Chain tables: items in buckets, the latest first. A search passes the items of one bucket, from the last to the one before it.
#![tactic(auto)]

ghost use Rattle.std.specs.Prelude.{◌≡◌, ◌+◌, ◌<◌, ◌≤◌, length, get_or};
ghost use Rattle.model.specs.Audit.{item_limit};
ghost use Rattle.chains.specs.Chain.{buckets, chain_words, linked};

pub struct Chain {}

impl Chain {
    pub const BUCKETS: usize = 2048;

    // A word for each bucket, and one for each item number from 0 to the limit.
    pub const WORDS: usize = 4097;
}

// The last item of a bucket; 0 where there is none.
pub fn last(chain: &[u32], bucket: usize) -> usize
    requires { (length chain.now ≡ chain_words) × (bucket < buckets) }
    ensures { result ≡ get_or chain.now bucket 0 }
{
    chain[bucket] as usize
}

// The item before item number k in its bucket; 0 where there is none.
pub fn behind(chain: &[u32], k: usize) -> usize
    requires { (length chain.now ≡ chain_words) × (k ≤ item_limit) }
    ensures { result ≡ get_or chain.now (buckets + k) 0 }
{
    chain[Chain::BUCKETS + k] as usize
}

// Puts item number k into a bucket, as its last.
pub fn put(chain: &mut [u32], bucket: usize, k: usize)
    requires { (length chain.old ≡ chain_words) × (bucket < buckets) × (k ≤ item_limit) }
    ensures { chain.new ≡ linked chain.old bucket k }
{
    let behind = chain[bucket];
    chain[Chain::BUCKETS + k] = behind;
    chain[bucket] = k as u32;
}

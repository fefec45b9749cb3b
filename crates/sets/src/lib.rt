// Sets of contests: runs of words, of which number j is bit j mod 32 of word j div 32. One function serves sets of one word and of eight.
// Paper: "Item types", request (v).
#![tactic(auto)]

ghost use Rattle.std.specs.Prelude.{◌≡◌, ℕ, ◌+◌, ◌*◌, ◌/◌, ◌%◌, ◌^◌, ◌≤◌, ◌<◌, length, get_or, eqb};
ghost use Rattle.std.specs.Int.Bits.{bit_or};
ghost use Rattle.model.specs.Lists.{if◌then◌otherwise◌, part};
ghost use Rattle.model.specs.Words.{set_bits, member, size, all_in};

// Whether a set is empty.
pub fn is_empty(set: &[u32]) -> bool
    ensures { result ≡ eqb (size set.now) 0 }
{
    words::is_zero(set)
}

// Whether each of its numbers is in the other, of as many words.
pub fn is_within(set: &[u32], other: &[u32]) -> bool
    requires { length set.now ≤ length other.now }
    ensures { result ≡ all_in set.now (member other.now) }
{
    set.iter()
        .zip(other)
        .all(|(word, of_other)| word & !of_other == 0)
}

// How many numbers it has.
pub fn count(set: &[u32]) -> u32
    requires { length set.now ≤ 8 }
    ensures { result ≡ size set.now }
{
    set.iter().map(|word| word.count_ones()).sum()
}

// A set with one more number.
pub fn with(set: [u32; 8], j: u32) -> [u32; 8]
    requires { j < 256 }
    ensures { (k : ℕ) → k < 8
        → get_or result k 0 ≡ (if eqb (j / set_bits) k then bit_or (get_or set k 0) (2 ^ (j % set_bits)) otherwise get_or set k 0) }
{
    let mut words = set;
    words[(j / u32::BITS) as usize] |= 1 << (j % u32::BITS);
    words
}

// A set with the numbers of another.
pub fn union(set: [u32; 8], more: &[u32]) -> [u32; 8]
    requires { length more.now ≤ 8 }
    ensures { (k : ℕ) → k < 8 → get_or result k 0 ≡ bit_or (get_or set k 0) (get_or more.now k 0) }
{
    let mut words = set;
    for (k, word) in more.iter().enumerate() {
        words[k] |= *word;
    }
    words
}

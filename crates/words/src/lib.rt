// Runs of words: compared, cleared, written into a buffer, and read from bytes and written as bytes.
#![tactic(auto)]

ghost use Rattle.std.specs.Prelude.{◌≡◌, [], ◌∷◌, ◌++◌, ◌+◌, ◌*◌, ◌/◌, ◌%◌, ◌^◌, ◌≤◌, ◌<◌, length, drop, replicate};
ghost use Rattle.std.proofs.lemmas.List.Edits.{sets};
ghost use Rattle.model.specs.Lists.{part};
ghost use Rattle.model.specs.Words.{pair, same_words};
ghost use Rattle.model.specs.Above.{is_bad_run};
ghost use Rattle.model.specs.Program.{from_bytes};
ghost use Rattle.words.specs.Bytes.{word_of, word_at, to_bytes};

// Two words as one number, the high one first.
pub fn joined(high: u32, low: u32) -> u64
    ensures { result ≡ high * 2 ^ 32 + low }
{
    u64::from(high) << 32 | u64::from(low)
}

// Two words at a place as one number, the high one first.
pub fn pair_at(a: &[u32], i: usize) -> u64
    requires { i + 2 ≤ length a.now }
    ensures { result ≡ pair (part i 2 a.now) }
{
    joined(a[i], a[i + 1])
}

// The n words of a at i, as the model's `part`: callers' proofs keep that word, and owe one bound in place of a slice's three.
pub fn part(a: &[u32], i: usize, n: usize) -> &[u32]
    requires { i + n ≤ length a.now }
    ensures value { result.now ≡ part i n a.now }
    ensures len { length result.now ≡ n }
{
    &a[i..i + n]
}

// Whether two runs of words are the same.
pub fn same_words(a: &[u32], b: &[u32]) -> bool
    ensures { result ≡ same_words a.now b.now }
{
    a == b
}

// Whether words are not whole parts of one size, or more parts than a limit.
pub fn is_bad_run(w: &[u32], size: usize, limit: usize) -> bool
    requires { 1 ≤ size }
    ensures { result ≡ is_bad_run size limit w.now }
{
    w.len() % size != 0 || limit < w.len() / size
}

// Writes words into a buffer, from a place on.
pub fn put(words: &[u32], buffer: &mut [u32], at: usize)
    requires { at + length words.now ≤ length buffer.old }
    ensures { buffer.new ≡ sets buffer.old at words.now }
{
    buffer[at..at + words.len()].copy_from_slice(words);
}

// Whether every word is zero.
pub fn is_zero(a: &[u32]) -> bool
    ensures { result ≡ same_words a.now (replicate (length a.now) 0) }
{
    a.iter().all(|word| *word == 0)
}

// Sets every word to zero.
pub fn clear(s: &mut [u32])
    ensures { s.new ≡ replicate (length s.old) 0 }
{
    s.fill(0);
}

// Writes the words of the bytes into the first words of w: a word for each four bytes; one to three bytes at the end are left out.
pub fn words_of(bytes: &[u8], w: &mut [u32])
    requires { length bytes.now / 4 ≤ length w.old }
    ensures { w.new ≡ from_bytes bytes.now ++ drop (length bytes.now / 4) w.old }
{
    let (fours, _) = bytes.as_chunks::<4>();
    for (i, four) in fours.iter().enumerate() {
        w[i] = u32::from_be_bytes(*four);
    }
}

// Writes the bytes of the words into the first bytes.
pub fn bytes_of(w: &[u32], bytes: &mut [u8])
    requires { 4 * length w.now ≤ length bytes.old }
    ensures { bytes.new ≡ to_bytes w.now ++ drop (4 * length w.now) bytes.old }
{
    for (i, word) in w.iter().enumerate() {
        bytes[4 * i..4 * i + 4].copy_from_slice(&word.to_be_bytes());
    }
}

// SHA-384 and SHA-512 for programs in C and Rust. A caller outside Rattle is checked by nothing, so the entries require nothing; they take
// any message, since none in memory has 2 ^ 128 bits.
#![tactic(auto)]

ghost use Rattle.std.specs.Prelude.{◌≡◌};
ghost use Rattle.sha512_block.specs.Fips.{sha384_words, sha512_words};

// Writes the SHA-384 digest of the message.
#[unsafe(no_mangle)]
pub extern "C" fn tirfolma_sha384_words(words: &[u32], digest: &mut [u32; 12])
    ensures { digest.new ≡ sha384_words words.now }
{
    *digest = sha512::digest384(words);
}

// Writes the SHA-512 digest of the message.
#[unsafe(no_mangle)]
pub extern "C" fn tirfolma_sha512_words(words: &[u32], digest: &mut [u32; 16])
    ensures { digest.new ≡ sha512_words words.now }
{
    *digest = sha512::digest512(words);
}

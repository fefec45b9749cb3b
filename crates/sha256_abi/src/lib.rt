// SHA-256 for programs in C and Rust. A caller outside Rattle is checked by nothing, so the entry requires nothing: it refuses.
#![tactic(auto)]

ghost use Rattle.sha256_abi.specs.Answer.{Answer};

// Writes the digest of the message and returns true; where the message is longer than the hash takes, returns false and writes nothing.
#[unsafe(no_mangle)]
pub extern "C" fn tirfolma_sha256_words(words: &[u32], digest: &mut [u32; 8]) -> bool
    ensures { Answer words.now digest.old result digest.new }
{
    if words.len() <= sha256::Hash::LIMIT {
        *digest = sha256::digest(words);
        return true;
    }
    false
}

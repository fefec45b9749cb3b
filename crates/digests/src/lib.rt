// The digest of words by the hash of a curve: the one place where the hash of a board's items is chosen. Paper: request (ix).
#![tactic(auto)]

ghost use Rattle.std.specs.Prelude.{◌≡◌, ◌*◌, ◌^◌, ◌<◌, length};
ghost use Rattle.model.specs.Format.{longest_address};
ghost use Rattle.model.specs.Report.{filled};
ghost use Rattle.digests.specs.Digest.{hash_by};

use format::format::Format;

// The digest of a message, of 8, 12 or 16 words, and zeros behind it.
pub fn digest(curve: u32, message: &[u32]) -> [u32; 16]
    requires { length message.now * 32 < 2 ^ 64 }
    ensures { result ≡ filled longest_address (hash_by curve message.now) }
{
    if curve == Format::SECP521R1 {
        return sha512::digest512(message);
    }
    let mut digest = [0; Format::LONGEST];
    if curve == Format::SECP384R1 {
        let sha384 = sha512::digest384(message);
        words::put(&sha384, &mut digest, 0);
        return digest;
    }
    let sha256 = sha256::digest(message);
    words::put(&sha256, &mut digest, 0);
    digest
}

// A byte looked for in a text.
ghost use Rattle.std.specs.Prelude.{◌≡◌, eqb};
ghost use Rattle.std.specs.List.{position};

// The first place of the byte, None where it is not there.
pub fn find(text: &[u8], c: u8) -> Option<usize>
    ensures { result ≡ position (λ d. eqb d c) text.now }
{
    text.iter().position(|d| *d == c)
}

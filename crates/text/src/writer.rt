// Bytes written into a buffer that the caller lends, each text behind the last.
ghost use Rattle.std.specs.Prelude.{◌≡◌, [], ◌∷◌, ◌+◌, ◌<◌, ◌≤◌, length};
ghost use Rattle.model.specs.Program as model;
ghost use Rattle.text.specs.Put.{Writes};

use itoa::Buffer;

// The buffer, and the place of the next byte.
#[derive(Drop)]
pub struct Writer<'a> {
    pub out: &'a mut [u8],
    pub at: usize,
}

impl<'a> Writer<'a> {
    pub fn byte(&mut self, b: u8)
        requires { self.old.at < length self.old.out.now }
        ensures { Writes self.old (b ∷ []) self.new }
    {
        self.out[self.at] = b;
        self.at += 1;
    }

    pub fn bytes(&mut self, text: &[u8])
        requires { self.old.at + length text.now ≤ length self.old.out.now }
        ensures { Writes self.old text.now self.new }
    {
        let end = self.at + text.len();
        self.out[self.at..end].copy_from_slice(text);
        self.at = end;
    }

    // The decimal digits of a number, without a zero in front.
    pub fn decimal(&mut self, n: u64)
        requires { self.old.at + length (model.decimal n) ≤ length self.old.out.now }
        ensures { Writes self.old (model.decimal n) self.new }
    {
        self.bytes(Buffer::new().format(n).as_bytes());
    }

    // A number behind a space.
    pub fn spaced(&mut self, n: u64)
        requires { self.old.at + length (model.spaced (n ∷ [])) ≤ length self.old.out.now }
        ensures { Writes self.old (model.spaced (n ∷ [])) self.new }
    {
        self.byte(b' ');
        self.decimal(n);
    }
}

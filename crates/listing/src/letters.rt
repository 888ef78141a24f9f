// A line of a listing while it is put together: at most 64 bytes, which hold every line. Relies on the kit's itoa for a number in decimal.
ghost use Rattle.std.specs.Prelude.{ℕ, ◌≡◌, ◌+◌, ◌≤◌, ◌<◌, List, [], ◌∷◌, ◌++◌, length, take, drop};
ghost use Rattle.listing.specs.Letters.{decimal};

use std::marker::Model;

// No line of a listing is longer, so a buffer of that many bytes holds each.
pub const LONGEST: usize = 64;

// A text of at most 64 bytes, in an array, since the project has no heap. A clause sees the bytes put so far.
#[derive(Drop)]
pub struct Text {
    bytes: [u8; LONGEST],
    len: usize,
}

impl Model for Text {
    ghost Value = { List ℕ };

    ghost view = { λ t. take t.len t.bytes };

    ghost invariant = { λ t. t.len ≤ 64 };
}

// What puts a line together is inlined, here and in said.rt, up to `step`: the text's length then stays in a register. As calls of their own they
// took up to three times as long (docs/PERFORMANCE.md).
impl Text {
    pub fn new() -> Self
        ensures { result ≡ [] }
    {
        Text {
            bytes: [0; LONGEST],
            len: 0,
        }
    }

    // More bytes behind the text.
    #[inline(always)]
    pub fn text(&mut self, more: &[u8])
        requires { length self.old + length more.now ≤ 64 }
        ensures is { self.new ≡ self.old ++ more.now }
        ensures len { length self.new ≡ length self.old + length more.now }
    {
        let end = self.len + more.len();
        self.bytes[self.len..end].copy_from_slice(more);
        self.len = end;
    }

    // A number behind the text. `write!` could answer an error, and no contract says that it does not; the text of itoa is there in every case.
    #[tactic(auto, using(crate::proofs::Decimals::same))]
    #[inline(always)]
    pub fn number(&mut self, n: usize)
        requires { length self.old + length (decimal n) ≤ 64 }
        ensures is { self.new ≡ self.old ++ decimal n }
        ensures len { length self.new ≡ length self.old + length (decimal n) }
    {
        let mut digits = itoa::Buffer::new();
        self.text(digits.format(n).as_bytes());
    }

    // A label and a number behind the text.
    #[inline(always)]
    pub fn item(&mut self, label: &[u8], n: usize)
        requires { length self.old + length label.now + length (decimal n) ≤ 64 }
        ensures is { self.new ≡ self.old ++ label.now ++ decimal n }
        ensures len { length self.new ≡ length self.old + length label.now + length (decimal n) }
    {
        self.text(label);
        self.number(n);
    }

    // The text at a buffer's start, and how many bytes it has.
    #[inline(always)]
    pub fn copy_to(&self, out: &mut [u8]) -> usize
        requires { 64 ≤ length out.old }
        ensures len { result ≡ length self.now }
        ensures fits { result ≤ 64 }
        ensures leaves { out.new ≡ self.now ++ drop (length self.now) out.old }
    {
        out[..self.len].copy_from_slice(&self.bytes[..self.len]);
        self.len
    }
}

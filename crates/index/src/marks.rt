// A mark for each of the 65,536 numbers: bits of 64-bit words. A number is marked when it is met, so that one met a second time is known at once.
// Relies on nothing else of the crate.
ghost use Rattle.std.specs.Prelude.{◌≡◌, ℕ, false, ◌||◌, eqb, ◌<◌, ◌/◌, ◌%◌, ◌^◌};
ghost use Rattle.std.specs.Int.Bits.{bit_or};
ghost use Rattle.index.specs.Steps.{marked};

// 1024 words of 64 bits: a bit for each number. An array, not a set: the memory is fixed.
const WORDS: usize = 1024;

const BITS: usize = 64;

#[derive(Drop)]
pub struct Marks {
    words: [u64; WORDS],
}

// Whether bit k of a word is set.
fn is_marked(word: u64, k: usize) -> bool
    requires { k < 64 }
    ensures { result ≡ eqb (word / 2 ^ k % 2) 1 }
{
    (word >> k) % 2 == 1
}

// The word with bit k.
fn with_mark(word: u64, k: usize) -> u64
    requires { k < 64 }
    ensures { result ≡ bit_or word (2 ^ k) }
{
    word | (1u64 << k)
}

impl Marks {
    // Nothing is marked.
    pub fn none() -> Marks
        ensures { (n : ℕ) → marked result n ≡ false }
    {
        Marks {
            words: [0u64; WORDS],
        }
    }

    // Marks a number, and no other. Answers whether it was marked before.
    pub fn mark(&mut self, n: u16) -> bool
        ensures before { result ≡ marked self.old n }
        ensures now { (m : ℕ) → marked self.new m ≡ (eqb n m || marked self.old m) }
    {
        let x = usize::from(n);
        let at = x / BITS;
        let k = x % BITS;
        let word = self.words[at];
        self.words[at] = with_mark(word, k);
        is_marked(word, k)
    }
}

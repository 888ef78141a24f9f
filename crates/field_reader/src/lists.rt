// The entries of a list that is read, and their numbers: altimeter blocks of 8 bits with a sign, addresses and identifiers of 24.
// Relies on `bits`; specs/Lists.antt of `fields` and of this crate say what each function means.
// The bits of an entry tell what it is, as in those definitions: 8 a block. `Behind` tells the same of a row of the table; here there is only a
// width, which the layout needs too.
ghost use Rattle.std.specs.Prelude.{◌≡◌, ◌+◌, ◌*◌, ◌<◌, ◌≤◌, ◌^◌, replicate};
ghost use Rattle.bits.specs.Bits.{bits_of};
ghost use Rattle.fields.specs.Table.{values_of};
ghost use Rattle.fields.specs.Lists.{signed, block_of, block_unused, entry_of, any_unused, entries_in};
ghost use Rattle.field_reader.specs.Lists.{entry_at};

fn signed_of(minus: bool, n: u64) -> i32
    requires { n < 2 ^ 24 }
    ensures { result ≡ signed minus n }
{
    let z = n as i32;
    if minus { -z } else { z }
}

fn block_of(x: u64) -> i32
    requires { x < 256 }
    ensures { result ≡ block_of x }
{
    signed_of(x / 128 == 1, x / 16 % 8 * 10 + x % 16)
}

// Hundreds above 9, or minus zero.
fn block_unused(x: u64) -> bool
    ensures { result ≡ block_unused x }
{
    9 < x % 16 || x == 128
}

// The n bits behind the first `at`. A block is a byte of its own, and there may be sixteen of them, so it is not read as a bit field.
#[tactic(auto, using(bits::proofs::Laws::byte_is, bits::proofs::Laws::whole))]
fn piece(b: &[u8], at: usize, n: usize) -> u64
    requires { n ≤ 24 }
    ensures { result ≡ bits_of b.now at n }
{
    match b.get(at / 8) {
        Some(byte) if n == 8 && at % 8 == 0 => u64::from(*byte),
        _ => bits::read(b, at, n),
    }
}

// The number of an entry of `step` bits.
fn entry_of(step: usize, x: u64) -> i32
    requires { (step ≤ 24) × (x < 2 ^ step) }
    ensures { result ≡ entry_of step x }
{
    if step == 8 {
        return block_of(x);
    }
    signed_of(false, x)
}

// Entries that are read: n of `step` bits each, of which the first stands behind `before` bits.
#[derive(Drop)]
pub struct Entries<'a> {
    pub bytes: &'a [u8],
    pub before: usize,
    pub step: usize,
    pub n: usize,
    ghost near: { before ≤ 4096 },
    ghost narrow: { step ≤ 24 },
    ghost few: { n ≤ 64 },
}

impl<'a> Entries<'a> {
    // One of these blocks is not in use.
    pub fn any_unused(&self) -> bool
        requires { self.now.step ≡ 8 }
        ensures { result ≡ any_unused (values_of self.now.bytes.now self.now.before (replicate self.now.n 8)) }
    {
        // The range stays: k numbers bit fields, which are in no slice that could be walked.
        for k in 0..self.n {
            if block_unused(piece(self.bytes, self.before + 8 * k, 8)) {
                return true;
            }
        }
        false
    }

    // The number of entry k; zero from the count on.
    fn at(&self, k: usize) -> i32
        requires { k < 30 }
        ensures { result ≡ entry_at self.now.bytes.now self.now.before self.now.step self.now.n k }
    {
        if k < self.n {
            let x = piece(self.bytes, self.before + self.step * k, self.step);
            return entry_of(self.step, x);
        }
        0
    }

    // Thirty numbers: those of the entries, and zeros.
    pub fn numbers(&self) -> [i32; 30]
        ensures { result ≡ entries_in self.now.step 30 (values_of self.now.bytes.now self.now.before (replicate self.now.n self.now.step)) }
    {
        // The loop stays: `from_fn` ties its calls by a chain of states, and its proof would follow `self` through all thirty: no plainer.
        let mut v = [0i32; 30];
        for (k, entry) in v.iter_mut().enumerate() {
            *entry = self.at(k);
        }
        v
    }
}

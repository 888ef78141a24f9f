// Inserted zeros, taken out and put in. Both go through the bits by runs: as many bits at once as one load holds, and no further than the
// fifth one in a row, behind which the inserted zero stands.
// Relies on stream.rt for one bit, bits for many; specs/Zeros.antt says what inserted zeros are, specs/Steps.antt what a run is.
ghost use Rattle.std.specs.Prelude.{◌≡◌, ◌+◌, ◌-◌, ◌*◌, ◌^◌, ◌≤◌, ◌<◌, true, replicate, MatchOption};
ghost use Rattle.bits.specs.Bits.{put_bits};
ghost use Rattle.frames.specs.Stream.{bits_from, put_all};
ghost use Rattle.frames.specs.Zeros.{with_zeros, zero_missing};
ghost use Rattle.frames.specs.Steps.{BodyIs, RunIs, RunPut, fives_in};

use crate::stream::{CHUNK, bit, copy_bits};

// Bits that are put one behind the other into N bytes of zeros, and how many they are. Past the last byte nothing is put.
// That the count stays below 2^64 is no invariant: it is of the count and of what is put together, which only a call has.
// An array, not a Vec: the memory is fixed.
#[derive(Clone, Copy)]
pub struct Filled<const N: usize> {
    pub bytes: [u8; N],
    pub count: usize,
}

impl<const N: usize> Filled<N> {
    pub fn new() -> Self
        ensures { (result.bytes ≡ replicate N 0) × (result.count ≡ 0) }
    {
        Filled {
            bytes: [0; N],
            count: 0,
        }
    }

    // Puts the n low bits of x.
    pub fn put(&mut self, n: usize, x: u64)
        requires { self.old.count + n < 2 ^ 64 }
        ensures { (self.new.bytes ≡ put_bits self.old.bytes self.old.count n x) × (self.new.count ≡ self.old.count + n) }
    {
        bits::write(&mut self.bytes, self.count, n, x);
        self.count += n;
    }

    // Puts a run of b: of the bits left from p on, with so many ones in front of them, at most as many as one load holds, and no further than
    // the fifth one in a row.
    fn put_run(&mut self, b: &[u8], p: usize, left: usize, ones: usize) -> Run
        requires { (0 < left) × (ones ≤ 4) × (self.old.count + left < 2 ^ 64) }
        ensures { RunPut b.now p left ones self.old result self.new }
    {
        let count = left.min(CHUNK);
        let bits = bits::read(b, p, count);
        let run = Part { ones, count, bits }.run();
        self.put(run.bits, bits >> (count - run.bits));
        run
    }

    // Puts the first n bits of b.
    pub fn put_bits_of(&mut self, b: &[u8], n: usize)
        requires { self.old.count + n < 2 ^ 64 }
        ensures { (self.new.bytes ≡ put_all self.old.bytes self.old.count (bits_from b.now 0 n)) × (self.new.count ≡ self.old.count + n) }
    {
        copy_bits(&mut self.bytes, self.count, b, 0, n);
        self.count += n;
    }
}

// The digits that are the fifth one in a row, or a later one.
#[tactic(auto, unfolding(crate::specs::Steps::fives_in))]
fn fives(y: u64) -> u64
    ensures { result ≡ fives_in y }
{
    let two = y & (y >> 1);
    two & (two >> 2) & (y >> 4)
}

// How many bits are taken at once, and how many ones then stand in front of the next bit.
#[derive(Clone, Copy)]
struct Run {
    bits: usize,
    ones: usize,
}

// Bits that were read, as the number that they make, and how many ones stand in front of them.
#[derive(Clone, Copy)]
struct Part {
    ones: usize,
    count: usize,
    bits: u64,
    ghost in_range: { (ones ≤ 4) × (0 < count) × (count ≤ 56) × (bits < 2 ^ count) },
}

impl Part {
    // The number that the ones and the bits make.
    fn behind_ones(self) -> u64
        ensures { (result ≡ (2 ^ self.ones - 1) * 2 ^ self.count + self.bits) × (result < 2 ^ 60) }
    {
        (((1u64 << self.ones) - 1) << self.count) + self.bits
    }

    // The bits up to the fifth one in a row; all, where there is none.
    fn run(self) -> Run
        ensures { RunIs self.ones self.count self.bits result.bits result.ones }
    {
        let y = self.behind_ones();
        let five = fives(y);
        if five == 0 {
            Run {
                bits: self.count,
                ones: u64::trailing_zeros(y + 1) as usize,
            }
        } else {
            Run {
                bits: self.count + u64::leading_zeros(five) as usize - 63,
                ones: 5,
            }
        }
    }
}

// What stands between the flags without the inserted zeros: its bits, as many as there is room for. None where a zero is missing.
// Goes through the bits from a place up to another.
pub fn body_of(b: &[u8], from: usize, to: usize) -> Option<Filled<255>>
    requires { from ≤ to }
    ensures { MatchOption result (zero_missing 0 (bits_from b.now from (to - from)) ≡ true) (λ body. BodyIs (bits_from b.now from (to - from)) body.bytes body.count) }
{
    let mut body = Filled::new();
    let mut ones = 0;
    let mut p = from;
    // not a `for`: a step is an inserted zero or a run
    while p < to {
        if ones == 5 {
            if bit(b, p) == 1 {
                return None;
            }
            ones = 0;
            p += 1;
        } else {
            // past the last byte nothing is put: so long a frame is refused
            let run = body.put_run(b, p, to - p, ones);
            p += run.bits;
            ones = run.ones;
        }
    }
    if ones == 5 { None } else { Some(body) }
}

// A body with its inserted zeros: at most 2040 bits and 408 zeros.
pub fn with_zeros(body: &Filled<255>) -> Filled<306>
    requires { body.now.count ≤ 2040 }
    ensures { (bits_from result.bytes 0 result.count ≡ with_zeros 0 (bits_from body.now.bytes 0 body.now.count)) × (result.count ≤ 2448) }
{
    let mut stuffed = Filled::new();
    let mut ones = 0;
    let mut i = 0;
    // not a `for`: a step is a run
    while i < body.count {
        let run = stuffed.put_run(&body.bytes, i, body.count - i, ones);
        // behind five ones a zero, which is there already
        stuffed.count += run.ones / 5;
        ones = run.ones % 5;
        i += run.bits;
    }
    stuffed
}

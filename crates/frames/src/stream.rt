// Bits of lent bytes, one fetched and many copied, and whether a count is over them: what the reader and the writer both need. A bit is named by
// the number of bits before it.
// Relies on bits for many bits at a time; specs/Stream.antt, and specs/Bits.antt of bits, say which bits they are.
ghost use Rattle.std.specs.Prelude.{◌≡◌, ◌+◌, ◌<◌, ◌^◌};
ghost use Rattle.bits.specs.Bits.{bit_at};
ghost use Rattle.frames.specs.Stream.{bits_from, put_all};
ghost use Rattle.frames.specs.Reading.{count_over};

// As many bits as one load of eight bytes always holds, in whole bytes.
pub const CHUNK: usize = 56;

// Past the end there are zeros. For many bits `bits::read`; this one is called for each bit of a search.
#[tactic(auto, unfolding(bits::specs::Bits::bit_at))]
pub fn bit(b: &[u8], p: usize) -> u64
    ensures { (result ≡ bit_at b.now p) × (result < 2) }
{
    b.get(p / 8)
        .map_or(0, |x| (u64::from(*x) >> (7 - p % 8)) % 2)
}

// Puts n bits of t, behind its first `from`, behind the first `at` of s.
pub fn copy_bits(s: &mut [u8], at: usize, t: &[u8], from: usize, n: usize)
    requires { (at + n < 2 ^ 64) × (from + n < 2 ^ 64) }
    ensures { s.new ≡ put_all s.old at (bits_from t.now from n) }
{
    let whole = n / CHUNK;
    for k in 0..whole {
        let p = k * CHUNK;
        bits::write(s, at + p, CHUNK, bits::read(t, from + p, CHUNK));
    }
    let p = whole * CHUNK;
    bits::write(s, at + p, n - p, bits::read(t, from + p, n - p));
}

// Whether so many bytes have fewer bits than the count.
pub fn count_over(length: usize, count: usize) -> bool
    ensures { result ≡ count_over length count }
{
    length < count.div_ceil(8)
}

// Bit fields of lent bytes. Bit 1 is the top bit of the first byte (document 01, "Link data fields"); a field is named by how many bits
// stand before it and by its width. Both calls take every place and every width: what lies past the end reads as 0, and a write there does nothing.
// Relies on nothing; specs/Bits.antt says what each answer means.
#![tactic(auto)]

ghost use Rattle.std.specs.Prelude.{◌≡◌, ◌+◌, ◌-◌, ◌*◌, ◌/◌, ◌%◌, ◌≤◌, ◌<◌, ◌^◌, length};
ghost use Rattle.bits.specs.Bits.{bit_at, bits_of, with_digit, with_part, put_bit, put_bits};

// The byte of the i-th bit after the first `before`: summed so that no place is too large.
fn byte_of(before: usize, i: usize) -> usize
    ensures { result ≡ (before + i) / 8 }
{
    before / 8 + i / 8 + (before % 8 + i % 8) / 8
}

// How many bits of that byte stand behind it.
fn behind(before: usize, i: usize) -> usize
    ensures { result ≡ 7 - (before + i) % 8 }
{
    7 - (before % 8 + i % 8) % 8
}

// The i-th bit after the first `before`.
#[tactic(auto, unfolding(crate::specs::Bits::bit_at))]
fn digit(b: &[u8], before: usize, i: usize) -> u64
    ensures { result ≡ bit_at b.now (before + i) }
{
    let k = behind(before, i);
    b.get(byte_of(before, i))
        .map_or(0, |x| (u64::from(*x) >> k) % 2)
}

// Bit by bit: the number that the n bits after the first `before` make, the first the heaviest; of more than 64 bits, that of the last 64.
// For places and widths that no caller in a hurry asks for.
fn by_digits(b: &[u8], before: usize, n: usize) -> u64
    ensures { result ≡ bits_of b.now before n % 2 ^ 64 }
{
    let mut v: u64 = 0;
    for i in n.saturating_sub(64)..n {
        v = v * 2 + digit(b, before, i);
    }
    v
}

fn weight(k: usize) -> u64
    requires { k ≤ 63 }
    ensures { result ≡ 2 ^ k }
{
    1u64 << k
}

// The number that two bytes make, from the one at j on.
fn two(b: &[u8], j: usize) -> u64
    requires { j + 2 ≤ length b.now }
    ensures { (result ≡ bits_of b.now (j * 8) 16) × (result < 65536) }
{
    u64::from(u16::from_be_bytes([b[j], b[j + 1]]))
}

// Four bytes, of which the compiler makes one load.
fn four(b: &[u8], j: usize) -> u64
    requires { j + 4 ≤ length b.now }
    ensures { (result ≡ bits_of b.now (j * 8) 32) × (result < 4294967296) }
{
    u64::from(u32::from_be_bytes([b[j], b[j + 1], b[j + 2], b[j + 3]]))
}

// Eight bytes: one load too.
fn eight(b: &[u8], j: usize) -> u64
    requires { j + 8 ≤ length b.now }
    ensures { result ≡ bits_of b.now (j * 8) 64 }
{
    four(b, j) * 4294967296 + four(b, j + 4)
}

// The first 64 bits of fewer than eight bytes: the bytes there are from both ends, and zeros.
fn few(b: &[u8]) -> u64
    requires { length b.now < 8 }
    ensures { result ≡ bits_of b.now 0 64 }
{
    let len = b.len();
    if 4 <= len {
        four(b, 0) * 4294967296 + (four(b, len - 4) << (64 - 8 * len)) % 4294967296
    } else if 2 <= len {
        (two(b, 0) * 65536 + (two(b, len - 2) << (32 - 8 * len)) % 65536) * 4294967296
    } else if len == 1 {
        u64::from(b[0]) << 56
    } else {
        0
    }
}

// The n bits of a number of 64 bits that stand behind its first `at`.
fn cut(w: u64, at: usize, n: usize) -> u64
    requires { (0 < n) × (at + n ≤ 64) }
    ensures { result ≡ w / 2 ^ (64 - at - n) % 2 ^ n }
{
    w << at >> (64 - n)
}

// The byte at i, or an earlier one that has seven behind it.
fn eight_from(i: usize, len: usize) -> usize
    requires { 8 ≤ len }
    ensures { (result ≤ i) × (result + 8 ≤ len) }
{
    i.min(len - 8)
}

// A field that no eight bytes of the slice hold: past the end, over it, or over nine bytes; or of more than 64 bits.
fn apart(b: &[u8], before: usize, n: usize) -> u64
    ensures { result ≡ bits_of b.now before n % 2 ^ 64 }
{
    if b.len() <= before / 8 {
        0
    } else {
        by_digits(b, before, n)
    }
}

// The number that the n bits after the first `before` make, the first the heaviest; of more than 64 bits, the number that the last 64 make.
// Out of eight bytes at once where they hold the field, as they do for each that has at most 57 bits and lies in the slice.
pub fn read(b: &[u8], before: usize, n: usize) -> u64
    ensures { result ≡ bits_of b.now before n % 2 ^ 64 }
{
    if n == 0 {
        return 0;
    }
    if n <= 64 {
        if 8 <= b.len() {
            let j = eight_from(before / 8, b.len());
            let at = before - 8 * j;
            if at <= 64 - n {
                return cut(eight(b, j), at, n);
            }
        } else if before <= 64 - n {
            return cut(few(b), before, n);
        }
    }
    apart(b, before, n)
}

// The byte x with its digit of weight 2 ^ k replaced by v.
fn with_digit(x: u8, k: usize, v: u64) -> u8
    requires { (k ≤ 7) × (v < 2) }
    ensures { result ≡ with_digit x k v }
{
    let w = u64::from(x);
    let p = weight(k);
    let h = w / p / 2 * 2 + v;
    ((h * p + w % p) % 256) as u8
}

// Replaces the i-th bit after the first `before`.
fn put_digit(s: &mut [u8], before: usize, i: usize, v: u64)
    requires { v < 2 }
    ensures { s.new ≡ put_bit s.old (before + i) v }
{
    let j = byte_of(before, i);
    let k = behind(before, i);
    // not by `get_mut`: its contract says nothing of what the slice ends as
    if j < s.len() {
        s[j] = with_digit(s[j], k, v);
    }
}

// Bit by bit, for places and widths that no caller in a hurry asks for.
fn put_digits(s: &mut [u8], before: usize, n: usize, v: u64)
    ensures { s.new ≡ put_bits s.old before n v }
{
    let mut rest = v;
    for k in (0..n).rev() {
        put_digit(s, before, k, rest % 2);
        rest /= 2;
    }
}

// The byte x with its w digits from weight 2 ^ k on replaced by v.
fn with_part(x: u8, k: usize, w: usize, v: u64) -> u8
    requires { (k + w ≤ 8) × (v < 2 ^ w) }
    ensures { result ≡ with_part x k w v }
{
    let x = u64::from(x);
    let p = weight(k);
    let above = x / weight(k + w) * weight(w);
    (((above + v) * p + x % p) % 256) as u8
}

// Replaces w bits that stand in one byte.
fn put_part(s: &mut [u8], before: usize, w: usize, v: u64)
    requires { before % 8 + w ≤ 8 }
    ensures { s.new ≡ put_bits s.old before w v }
{
    let j = before / 8;
    let k = 8 - before % 8 - w;
    // not by `get_mut`: its contract says nothing of what the slice ends as
    if j < s.len() {
        s[j] = with_part(s[j], k, w, v % weight(w));
    }
}

// How many of the last k bits before an end stand in one byte.
fn in_last(end: usize, k: usize) -> usize
    requires { (0 < k) × (k ≤ end) }
    ensures { (0 < result) × (result ≤ k) × ((end - result) % 8 + result ≤ 8) }
{
    k.min((end - 1) % 8 + 1)
}

// Byte by byte, the last one first.
fn put_near(s: &mut [u8], before: usize, n: usize, v: u64)
    requires { (before ≤ 4294967296) × (n ≤ 64) }
    ensures { s.new ≡ put_bits s.old before n v }
{
    let mut rest = v;
    let mut k = n;
    // not a `for`: a step takes as many bits as the byte holds
    while 0 < k {
        let w = in_last(before + k, k);
        put_part(s, before + (k - w), w, rest);
        rest /= weight(w);
        k -= w;
    }
}

// A whole byte, as a text has them one after the other.
fn put_byte(s: &mut [u8], before: usize, v: u64)
    requires { before % 8 ≡ 0 }
    ensures { s.new ≡ put_bits s.old before 8 v }
{
    put_part(s, before, 8, v);
}

// Replaces the n bits after the first `before` by the n low bits of v, by zeros before them where n is over 64. All other bits stay.
pub fn write(s: &mut [u8], before: usize, n: usize, v: u64)
    ensures { s.new ≡ put_bits s.old before n v }
{
    if n == 8 && before % 8 == 0 {
        put_byte(s, before, v);
    } else if n <= 64 && before <= 4294967296 {
        put_near(s, before, n, v);
    } else {
        put_digits(s, before, n, v);
    }
}

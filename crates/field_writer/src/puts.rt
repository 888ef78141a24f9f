// The parts of a field and the bytes of a text, one by one: whether the values fit, and their bits.
// Relies on `bits`; specs/Writing.antt of `fields` says what each function means.
// That `before` is at most 4096 stands in two of the three `requires`: it is another sum at each call, kept nowhere, so a type for it would be no
// plainer.
// That no width is above 63 is a law of the table, which both callers have by `Given`: a type for widths alone would be no plainer.
ghost use Rattle.std.specs.Prelude.{◌≡◌, ℕ, ◌≤◌, length, get_or, replicate};
ghost use Rattle.fields.specs.Writing.{fit_all, put_all};

// No value is too large for its part.
pub fn fit_all(widths: &[u8; 11], v: &[u64; 11]) -> bool
    requires { (k : ℕ) → get_or widths.now k 0 ≤ 63 }
    ensures { result ≡ fit_all widths.now v.now }
{
    for (width, x) in widths.iter().zip(v.iter()) {
        if *x >> *width != 0 {
            return false;
        }
    }
    true
}

// Writes the parts of a field behind the first `before` bits.
pub fn put_parts(s: &mut [u8], before: usize, widths: &[u8; 11], v: &[u64; 11])
    requires { (before ≤ 4096) × ((k : ℕ) → get_or widths.now k 0 ≤ 63) }
    ensures { s.new ≡ put_all s.old before widths.now v.now }
{
    let mut at: usize = before;
    for (width, x) in widths.iter().zip(v.iter()) {
        let w = usize::from(*width);
        bits::write(s, at, w, *x);
        at += w;
    }
}

// Writes a text's bytes behind the first `before` bits.
pub fn put_text(s: &mut [u8], before: usize, text: &[u8])
    requires { (before ≤ 4096) × (length text.now ≤ 4096) }
    ensures { s.new ≡ put_all s.old before (replicate (length text.now) 8) text.now }
{
    for (k, byte) in text.iter().enumerate() {
        bits::write(s, before + 8 * k, 8, u64::from(*byte));
    }
}

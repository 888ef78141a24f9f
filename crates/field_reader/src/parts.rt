// The values of a field's parts, by the widths of the table.
// Relies on `bits`; specs/Table.antt of `fields` says what they are.
ghost use Rattle.std.specs.Prelude.{◌≡◌, ℕ, ◌≤◌, get_or};
ghost use Rattle.bits.specs.Bits.{bits_of};
ghost use Rattle.fields.specs.Table.{values_of};

// The parts of a field that begins behind the first `before` bits, of which the first, its type, is known. Behind a part of no bits stands
// none that has any. That no width is above 63 is a law of the table: a type for widths alone would be made in one call, no plainer.
pub fn values(b: &[u8], before: usize, code: u64, widths: [u8; 11]) -> [u64; 11]
    requires { (before ≤ 4096) × (code ≡ bits_of b.now before (get_or widths 0 0)) × ((k : ℕ) → get_or widths k 0 ≤ 63) × ((k m : ℕ) → k ≤ m → get_or widths k 0 ≡ 0 → get_or widths m 0 ≡ 0) }
    ensures { result ≡ values_of b.now before widths }
{
    let mut v = [0u64; 11];
    v[0] = code;
    let mut at: usize = before + usize::from(widths[0]);
    // The range stays: i is the place in both arrays. Behind `skip(1)` a loop has no index that its invariant could name; `i + 1` is no plainer.
    for i in 1..11 {
        let w = usize::from(widths[i]);
        if w == 0 {
            return v;
        }
        v[i] = bits::read(b, at, w);
        at += w;
    }
    v
}

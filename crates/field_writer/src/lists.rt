// The entries of a list that is written: which numbers they hold, and their bits: altimeter blocks of 8 bits with a sign, addresses and
// identifiers of 24.
// Relies on `bits`; specs/Lists.antt of `fields` and of this crate say what each function means.
// The bits of an entry tell what it is, as in those definitions: 8 a block. `Behind` tells the same of a row of the table; here there is only a
// width, which the layout needs too.
ghost use Rattle.std.specs.Prelude.{◌≡◌, ◌≤◌, replicate};
ghost use Rattle.fields.specs.Lists.{entry_bits, entry_fits, list_fits, entries_bits};
ghost use Rattle.fields.specs.Writing.{put_all};
ghost use Rattle.field_writer.specs.Lists.{entry_ok};

// A number that an entry of `step` bits can hold.
#[tactic(auto, unfolding(fields::specs::Lists::entry_fits))]
fn entry_fits(step: usize, z: i32) -> bool
    ensures { result ≡ entry_fits step z }
{
    if step == 8 {
        z.unsigned_abs() < 80
    } else {
        0 <= z && z.unsigned_abs() < 16777216
    }
}

// Number k of a list of n: an entry, or zero from the count on.
#[tactic(auto, unfolding(crate::specs::Lists::entry_ok))]
fn entry_ok(step: usize, n: usize, k: usize, z: i32) -> bool
    ensures { result ≡ entry_ok step n k z }
{
    if k < n {
        return entry_fits(step, z);
    }
    z.unsigned_abs() == 0
}

// The first n numbers fit their entries, and the others are zero.
pub fn list_fits(step: usize, n: usize, list: &[i32; 30]) -> bool
    ensures { result ≡ list_fits step n list.now }
{
    for (k, number) in list.iter().enumerate() {
        let z = *number;
        if !entry_ok(step, n, k, z) {
            return false;
        }
    }
    n <= 30
}

// The bits of a number.
#[tactic(auto, unfolding(fields::specs::Lists::entry_bits))]
fn entry_bits(step: usize, z: i32) -> u64
    ensures { result ≡ entry_bits step z }
{
    let m = u64::from(z.unsigned_abs());
    if step == 8 {
        let sign = if z < 0 { 128 } else { 0 };
        return sign + m / 10 * 16 + m % 10;
    }
    m
}

// Writes n entries of `step` bits behind the first `before` bits.
pub fn put_entries(s: &mut [u8], before: usize, step: usize, n: usize, list: &[i32; 30])
    requires { (before ≤ 4096) × (step ≤ 80) × (n ≤ 30) }
    ensures { s.new ≡ put_all s.old before (replicate n step) (entries_bits step n list.now) }
{
    for (k, number) in list[..n].iter().enumerate() {
        let z = *number;
        bits::write(s, before + step * k, step, entry_bits(step, z));
    }
}

// The twelve bits of an altitude, in hundreds of feet, as it is written: in each form by a function of its own, and by the form's name.
// Relies on words for the numbers of bits; specs/Altitude.antt of reports says what each form is.
ghost use Rattle.std.specs.Prelude.{◌≡◌};
ghost use Rattle.reports.specs.Altitude.{sign_magnitude, twos_complement, form_of};
ghost use Rattle.report_writer.specs.Data.{bits_or_none};

use reports::altitude::Form;
use words::weights;

// Eleven bits hold the magnitudes below it. It is also what the first of twelve bits weighs, and the magnitude of the lowest altitude in two's complement.
const MAGNITUDES: u16 = weights::ELEVEN_BITS;

// A sign, 1 negative, and eleven bits.
fn sign_magnitude_bits(z: i16) -> Option<u16>
    ensures { result ≡ bits_or_none (sign_magnitude.bits_of z) }
{
    let n = z.unsigned_abs();
    if n >= MAGNITUDES {
        return None;
    }
    Some(if z.is_negative() { MAGNITUDES + n } else { n })
}

// Two's complement: below zero 4096 is added to the altitude, and from zero on its bits are those of the other form.
fn twos_complement_bits(z: i16) -> Option<u16>
    ensures { result ≡ bits_or_none (twos_complement.bits_of z) }
{
    if !z.is_negative() {
        return sign_magnitude_bits(z);
    }
    let n = z.unsigned_abs();
    if n <= MAGNITUDES {
        Some(weights::TWELVE_BITS - n)
    } else {
        None
    }
}

// The twelve bits of an altitude, where it has any in the form.
pub fn altitude_bits(z: i16, form: Form) -> Option<u16>
    ensures { result ≡ bits_or_none ((form_of form).bits_of z) }
{
    match form {
        Form::SignMagnitude => sign_magnitude_bits(z),
        Form::TwosComplement => twos_complement_bits(z),
    }
}

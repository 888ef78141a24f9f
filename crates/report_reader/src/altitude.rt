// The altitude of twelve bits, in hundreds of feet, as it is read in each form.
// No trait with an impl for each form: a form is chosen by a number from C when the program runs, so a match on its name is plainer.
// Relies on words; specs/Altitude.antt of reports says what each form is.
ghost use Rattle.std.specs.Prelude.{◌≡◌};
ghost use Rattle.reports.specs.Altitude.{form_of};

use reports::altitude::Form;
use words::weights::ELEVEN_BITS;

// The altitude of twelve bits: the first is a sign, 1 negative, or weighs -2048, and the other eleven are the magnitude.
pub fn altitude_of(n: u16, form: Form) -> i16
    ensures { result ≡ (form_of form).altitude n }
{
    let magnitude = (n % ELEVEN_BITS) as i16;
    if n / ELEVEN_BITS != 1 {
        return magnitude;
    }
    match form {
        Form::SignMagnitude => -magnitude,
        Form::TwosComplement => magnitude - ELEVEN_BITS as i16,
    }
}

// Twelve bits that are no altitude: minus zero, which is sign 1 and magnitude 0; in two's complement none are.
pub fn is_refused(n: u16, form: Form) -> bool
    ensures { result ≡ (form_of form).refused n }
{
    match form {
        Form::SignMagnitude => n / ELEVEN_BITS == 1 && n % ELEVEN_BITS == 0,
        Form::TwosComplement => false,
    }
}

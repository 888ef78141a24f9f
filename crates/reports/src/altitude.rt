// The two forms of the altitude by name, and by the number that a C program passes. specs/Altitude.antt says what each form is; the reader and the
// writer take a name from their caller, and only the lister chooses one.
ghost use Rattle.std.specs.Prelude.{◌≡◌};
ghost use Rattle.reports.specs.Altitude.{form_numbered};

#[derive(Clone, Copy, Debug, PartialEq, Eq)]
pub enum Form {
    SignMagnitude,
    TwosComplement,
}

// 0 is document 01's form, any other number the other one.
impl From<u32> for Form {
    ghost from_gives = { λ number form. form ≡ form_numbered number };

    fn from(number: u32) -> Form {
        if number == 0 {
            Form::SignMagnitude
        } else {
            Form::TwosComplement
        }
    }
}

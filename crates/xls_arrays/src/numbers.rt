//! Numbers as the stream has them.

ghost use Rattle.std.specs.Prelude.{◌≡◌};
ghost use Rattle.xls_arrays.specs.Numbers.{number_form};

use xls_data::Number;

/// The form of a number: 0 a double, 1 a whole number, 2 hundredths, 3 a double over 100.
pub fn form_of(number: Number) -> u32
    ensures { result ≡ number_form number }
{
    match number {
        Number::Bits(_) => 0,
        Number::Whole(_) => 1,
        Number::Hundredths(_) => 2,
        Number::BitsOver100(_) => 3,
    }
}

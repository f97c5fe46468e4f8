//! How names are compared.

ghost use Rattle.std.specs.Prelude.{◌≡◌};
ghost use Rattle.xls_compound.specs.Names.{is_same_name};

use ucd_case::simple_fold;

/// Whether two names are the same but for upper and lower case ([MS-CFB] 2.6.4).
pub(crate) fn is_same_name(one: &str, other: &str) -> bool
    ensures { result ≡ is_same_name one.now other.now }
{
    let mut others = other.chars();
    'chars: for c in one.chars() {
        let Some(d) = others.next() else {
            return false;
        };
        if simple_fold(c) != simple_fold(d) {
            return false;
        }
    }
    others.next().is_none()
}

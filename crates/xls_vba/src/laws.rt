//! Laws of the definitions.

ghost use Rattle.std.specs.Prelude.{◌≡◌, List, ℕ};
ghost use Rattle.xls_vba.specs.declared.error.VbaError.{VbaError};
ghost use Rattle.xls_vba.specs.Directory.{Project, IsDirectory, IsProjectFault};

/// Bytes are the directory of at most one project, have at most one first fault, and never both.
pub fn one_reading()
    ensures project { (bytes : List ℕ) (p q : Project)
        → IsDirectory bytes p → IsDirectory bytes q → p ≡ q }
    ensures fault { (bytes : List ℕ) (e f : VbaError)
        → IsProjectFault bytes e → IsProjectFault bytes f → e ≡ f }
    ensures either { (bytes : List ℕ) (p : Project) (e : VbaError)
        → IsDirectory bytes p → IsProjectFault bytes e → ⊥ }
{}

//! Laws of the definitions.

ghost use Rattle.std.specs.Prelude.{◌≡◌, ℕ, List, Bool};
ghost use Rattle.xls_compound.specs.declared.fault.DirectoryFault.{DirectoryFault};
ghost use Rattle.xls_compound.specs.Directory.{Listing, IsDirectory, IsDirectoryFault};

/// Bytes are a directory of at most one listing, have at most one first fault, and never both.
pub fn one_listing()
    ensures listing { (is_wide : Bool) (bytes : List ℕ) (l m : Listing)
        → IsDirectory is_wide bytes l → IsDirectory is_wide bytes m → l ≡ m }
    ensures fault { (is_wide : Bool) (bytes : List ℕ) (e f : DirectoryFault)
        → IsDirectoryFault is_wide bytes e → IsDirectoryFault is_wide bytes f → e ≡ f }
    ensures either { (is_wide : Bool) (bytes : List ℕ) (l : Listing) (e : DirectoryFault)
        → IsDirectory is_wide bytes l → IsDirectoryFault is_wide bytes e → ⊥ }
{}

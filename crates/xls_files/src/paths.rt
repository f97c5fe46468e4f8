//! Where the texts of files are written.

ghost use Rattle.std.specs.Prelude.{◌≡◌, ◌≤◌, ◌++◌, ◌↔◌, ℕ, List, length, map, IsTrue, IfOk, OnOk};
ghost use Rattle.std.specs.Option.{option_map};
ghost use Rattle.std.specs.String.{string_bytes};
ghost use Rattle.xls_files.specs.Paths.{HasNoSlash, IsInside, IsWorkbookName, below, file_called, file_path, folder_path, joined, kept_name, names_below, names_in};

use std::alloc::{AllocError, Global};

/// A name of a file's path in an output's: nothing leads out of the folder.
fn kept_name(name: &str) -> Option<&str>
    ensures { option_map (λ n. n.now) result ≡ kept_name name.now }
{
    if name == "" || name == "." {
        None
    } else if name == ".." {
        Some("__")
    } else {
        Some(name)
    }
}

/// Appends a name of a file's path.
fn push_name(path: &mut String, name: &str) -> Result<(), AllocError>
    ensures { OnOk result (string_bytes path.new ≡ string_bytes path.old ++ below (kept_name name.now)) }
{
    if let Some(name) = kept_name(name) {
        path.push('/')?;
        path.push_str(name)?;
    }
    Ok(())
}

/// The names of a path, which slashes separate.
pub fn names_of(alloc: Global, path: &str) -> Result<Vec<&str>, AllocError>
    ensures { IfOk result (λ names. map (λ n. n.now) names.items ≡ names_in path.now) }
{
    path.split('/').collect(alloc)
}

/// What a file is called; standard input is `stdin`.
fn called(file: &str) -> &str
    ensures { result.now ≡ file_called file.now }
{
    if file == "-" { "stdin" } else { file }
}

/// The folder for all, and in it the names of a file's path.
fn path_below(alloc: Global, out: &str, file: &str) -> Result<String, AllocError>
    ensures { IfOk result (λ s. string_bytes s ≡ out.now ++ names_below file.now) }
{
    let mut path = String::from_str(alloc, out)?;
    let names = names_of(alloc, called(file))?;
    for name in names.iter() {
        push_name(&mut path, name)?;
    }
    Ok(path)
}

/// The same, with `.out` behind the names, if there are any.
fn path_beside(alloc: Global, out: &str, file: &str) -> Result<String, AllocError>
    ensures { IfOk result (λ s. string_bytes s ≡ folder_path out.now file.now) }
{
    let mut path = path_below(alloc, out, file)?;
    if path.len() == out.len() {
        return Ok(path);
    }
    path.push_str(".out")?;
    Ok(path)
}

/// The folder for the texts of a file: the folder for all, and in it the file's own path, without the slashes
/// before it, `.` left out, `..` as `__`, and `.out` behind it, so that the folder for all may be the file's own.
/// Standard input is `stdin`.
pub fn folder_of(alloc: Global, out: &str, file: &str) -> Result<String, AllocError>
    ensures path { IfOk result (λ s. string_bytes s ≡ folder_path out.now file.now) }
    ensures inside { IfOk result (λ s. IsInside out.now (string_bytes s)) }
{
    path_beside(alloc, out, file)
}

/// A folder, a slash, a name, a dot and an ending.
fn path_in(alloc: Global, folder: &str, name: &str, ending: &str) -> Result<String, AllocError>
    ensures { IfOk result (λ s. string_bytes s ≡ file_path folder.now name.now ending.now) }
{
    let mut path = String::from_str(alloc, folder)?;
    path.push('/')?;
    path.push_str(name)?;
    path.push('.')?;
    path.push_str(ending)?;
    Ok(path)
}

/// The path of a file in a folder, by its name and its ending.
pub fn file_path(
    alloc: Global,
    folder: &str,
    name: &str,
    ending: &str,
) -> Result<String, AllocError>
    ensures path { IfOk result (λ s. string_bytes s ≡ file_path folder.now name.now ending.now) }

    // It lies where the folder does. An ending of two letters or more makes no `.` and no `..` of a name.
    ensures inside { (out : List ℕ) → IsInside out folder.now → HasNoSlash name.now → HasNoSlash ending.now
        → 2 ≤ length ending.now → IfOk result (λ s. IsInside out (string_bytes s)) }
{
    path_in(alloc, folder, name, ending)
}

/// The path of something in a folder. No slash follows one that ends the folder's path.
pub fn joined(alloc: Global, folder: &str, name: &str) -> Result<String, AllocError>
    ensures { IfOk result (λ s. string_bytes s ≡ joined folder.now name.now) }
{
    let mut path = String::from_str(alloc, folder)?;
    if !folder.ends_with('/') {
        path.push('/')?;
    }
    path.push_str(name)?;
    Ok(path)
}

/// Whether a name is that of a workbook.
pub fn is_workbook(name: &str) -> bool
    ensures { IsTrue result ↔ IsWorkbookName name.now }
{
    let bytes = name.as_bytes();
    let ending = &bytes[bytes.len().saturating_sub(4)..];
    ending.eq_ignore_ascii_case(b".xls")
        || ending.eq_ignore_ascii_case(b".xlt")
        || ending.eq_ignore_ascii_case(b".xla")
        || ending.eq_ignore_ascii_case(b".xlw")
}

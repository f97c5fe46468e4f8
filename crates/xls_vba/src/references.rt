//! What a project refers to.

ghost use Rattle.std.specs.Prelude.{◌≡◌, ◌++◌, ◌∷◌, [], List, IfOk, map};
ghost use Rattle.std.specs.String.{string_bytes};
ghost use Rattle.xls_vba.specs.Libids.{libid_view};
ghost use Rattle.xls_vba.specs.Items.{Element, element_of};
ghost use Rattle.xls_vba.specs.References.{reference_view, reference_views, begun, nameless, after_libid, with_path, listed, all_with};

use crate::items::Item;
use crate::libids::Libid;
use std::alloc::{AllocError, Global};

/// What a project refers to.
#[derive(Debug, PartialEq, Eq, Drop)]
pub struct Reference {
    /// The name.
    pub name: String,
    /// The last part of the libid, or the name where no libid says more.
    pub description: String,
    /// Where it stands, empty where nothing says it.
    pub path: String,
}

/// The references so far, and the one that the next items speak of.
#[derive(Drop)]
pub(crate) struct Listing {
    pub listed: Vec<Reference>,
    pub current: Reference,
}

/// Nothing is listed, and nothing has a name.
pub(crate) fn start(alloc: Global) -> Listing
    ensures listed { result.listed.items ≡ [] }
    ensures current { reference_view result.current ≡ nameless }
{
    Listing {
        listed: Vec::new(alloc),
        current: Reference {
            name: String::new(alloc),
            description: String::new(alloc),
            path: String::new(alloc),
        },
    }
}

fn begin(alloc: Global, name: String) -> Result<Reference, AllocError>
    ensures { IfOk result (λ r. reference_view r ≡ begun (string_bytes name)) }
{
    let description = String::from_str(alloc, name.as_str())?;
    Ok(Reference {
        name,
        description,
        path: String::new(alloc),
    })
}

fn with_libid(reference: Reference, libid: Libid) -> Reference
    ensures { reference_view result ≡ after_libid (libid_view libid) (reference_view reference) }
{
    let Some((path, description)) = libid else {
        return reference;
    };
    if reference.path.is_empty() {
        Reference {
            name: reference.name,
            description,
            path,
        }
    } else {
        Reference {
            name: reference.name,
            description,
            path: reference.path,
        }
    }
}

fn with_path(reference: Reference, path: String) -> Reference
    ensures { reference_view result ≡ with_path (string_bytes path) (reference_view reference) }
{
    Reference {
        name: reference.name,
        description: reference.description,
        path,
    }
}

/// A reference with a name is listed.
pub(crate) fn list(
    mut references: Vec<Reference>,
    reference: Reference,
) -> Result<Vec<Reference>, AllocError>
    ensures { IfOk result (λ v. reference_views v.items
        ≡ reference_views references.items ++ listed (reference_view reference)) }
{
    if !reference.name.is_empty() {
        references.push(reference)?;
    }
    Ok(references)
}

/// One item more.
pub(crate) fn next(alloc: Global, listing: Listing, item: Item) -> Result<Listing, AllocError>
    ensures { IfOk result (λ l. (more : List Element)
        → all_with (reference_views l.listed.items) (reference_view l.current) more
        ≡ all_with (reference_views listing.listed.items) (reference_view listing.current)
        (element_of item ∷ more)) }
{
    let Listing { listed, current } = listing;
    match item {
        Item::Named(name) => {
            let listed = list(listed, current)?;
            let current = begin(alloc, name)?;
            Ok(Listing { listed, current })
        }
        Item::Registered(libid) => Ok(Listing {
            listed,
            current: with_libid(current, libid),
        }),
        Item::Control(first, second) => Ok(Listing {
            listed,
            current: with_libid(with_libid(current, first), second),
        }),
        Item::Project(path) => Ok(Listing {
            listed,
            current: with_path(current, path),
        }),
    }
}

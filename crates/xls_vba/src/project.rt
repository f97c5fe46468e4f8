//! A macro project by its directory.

ghost use Rattle.std.specs.Prelude.{◌≡◌, ◌∷◌, [], List, ℕ, IfOk, IfErr, MatchResult, map, Contains};
ghost use Rattle.std.specs.Option.{option_map};
ghost use Rattle.std.specs.String.{string_bytes};
ghost use Rattle.xls_vba.specs.References.{reference_views};
ghost use Rattle.xls_vba.specs.Modules.{module_view, module_views};
ghost use Rattle.xls_vba.specs.Directory.{Project, IsDirectory, IsProjectFault, FailsIn};
ghost use Rattle.xls_vba.specs.Project.{last_module, module_names, IsProjectRefusal, AreNames};

use crate::directory::references_in;
use crate::error::VbaError;
use crate::fields::header_of;
use crate::modules::{Module, modules_of};
use crate::references::Reference;
use std::alloc::{AllocError, Global};
use std::marker::Model;

/// What a macro project refers to, and its modules, in the order of its directory.
#[derive(Debug, Drop)]
pub struct VbaProject {
    references: Vec<Reference>,
    modules: Vec<Module>,
}

impl Model for VbaProject {
    ghost use Rattle.xls_vba.specs.References.{reference_views};
    ghost use Rattle.xls_vba.specs.Modules.{module_views};
    ghost use Rattle.xls_vba.specs.Directory.{Project};

    ghost Value = { Project };

    ghost view = { λ project. record {
      references = reference_views project.references.items;
      modules = module_views project.modules.items;
    } };
}

// The last module of a name.
fn last_module<'a>(name: &str, modules: &'a [Module]) -> Option<&'a Module>
    ensures { option_map (λ m. module_view m.now) result
        ≡ last_module name.now (module_views modules.now) }
{
    let mut found = None;
    'modules: for module in modules {
        if module.name.as_str() == name {
            found = Some(module);
        }
    }
    found
}

// The names of modules, in order.
fn names_of(alloc: Global, modules: &[Module]) -> Result<Vec<&str>, AllocError>
    ensures { IfOk result (λ v.
        map (λ x. x.now) v.items ≡ module_names (module_views modules.now)) }
{
    let mut names = Vec::new(alloc);
    'modules: for module in modules {
        names.push(module.name.as_str())?;
    }
    Ok(names)
}

fn copied(alloc: Global, source: &Module) -> Result<Module, AllocError>
    ensures { IfOk result (λ m. module_view m ≡ module_view source.now) }
{
    let name = String::from_str(alloc, source.name.as_str())?;
    let stream_name = String::from_str(alloc, source.stream_name.as_str())?;
    Ok(Module {
        name,
        stream_name,
        text_offset: source.text_offset,
    })
}

impl VbaProject {
    /// The project of plain directory bytes ([MS-OVBA] dir Stream, decompressed). Refuses with the
    /// first field that isn't there or differs: `Truncated`, `Unknown`, `InvalidRecordId`, `LibId`
    /// or `Cfb`; else only where memory runs out. What stands after the modules is not looked at.
    pub fn from_dir(alloc: Global, bytes: &[u8]) -> Result<VbaProject, VbaError>
        ensures { MatchResult result (λ project. IsDirectory bytes.now project)
            (λ e. FailsIn e (IsProjectFault bytes.now)) }
    {
        let (page, rest) = header_of(bytes)?;
        let (references, rest) = references_in(alloc, page, rest)?;
        let modules = modules_of(alloc, page, rest)?;
        Ok(VbaProject {
            references,
            modules,
        })
    }

    /// What the project refers to, in the order of the directory.
    pub fn get_references(&self) -> &[Reference]
        ensures { reference_views result.now ≡ self.now.references }
    {
        &self.references
    }

    /// The names of the modules, each once, in the order of their bytes. Only running out of memory
    /// refuses.
    pub fn get_module_names(&self, alloc: Global) -> Result<Vec<&str>, AllocError>
        ensures { IfOk result (λ v. AreNames self.now.modules (map (λ x. x.now) v.items)) }
    {
        let mut names = names_of(alloc, &self.modules)?;
        names.sort_unstable();
        names.dedup();
        Ok(names)
    }

    /// A copy of the last module of a name. `ModuleNotFound` with the name exactly where no module
    /// has it, else only running out of memory refuses.
    pub fn module(&self, alloc: Global, name: &str) -> Result<Module, VbaError>
        ensures found { IfOk result (λ m.
            last_module name.now self.now.modules ≡ Some (module_view m)) }
        ensures cause { IfErr result (IsProjectRefusal name.now self.now.modules) }
    {
        let Some(module) = last_module(name, &self.modules) else {
            let name = String::from_str(alloc, name)?;
            return Err(VbaError::ModuleNotFound(name));
        };
        Ok(copied(alloc, module)?)
    }
}

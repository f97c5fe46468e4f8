//! The properties of a workbook.

ghost use Rattle.std.specs.Prelude.{◌≡◌, ℕ, List, IfOk};
ghost use Rattle.std.specs.Option.{option_map};
ghost use Rattle.xls_props.specs.Values.{Shows};
ghost use Rattle.xls_props.specs.Custom.{HasLast};
ghost use Rattle.xls_props.specs.Sections.{customs_in, field_of};
ghost use Rattle.xls_props.specs.Properties.{IsSummary, IsDocument, IsProperties};

use crate::section::{Section, section_from};
use std::alloc::{AllocError, Global};
use std::collections::BTreeMap;

/// The properties of a workbook as texts. What can't be read is none, and so is an empty text.
#[derive(Debug, Drop)]
pub struct WorkbookProperties {
    /// Who made the workbook.
    pub creator: Option<String>,
    /// Who saved it last.
    pub last_modified_by: Option<String>,
    /// When it was made: `2020-02-29T00:00:00Z`.
    pub created: Option<String>,
    /// When it was saved last, in the same form.
    pub modified: Option<String>,
    /// The title.
    pub title: Option<String>,
    /// The subject.
    pub subject: Option<String>,
    /// Comments on the workbook.
    pub description: Option<String>,
    /// Keywords.
    pub keywords: Option<String>,
    /// The category.
    pub category: Option<String>,
    /// The status, such as a draft's.
    pub content_status: Option<String>,
    /// How often it was saved.
    pub revision: Option<String>,
    /// The version of the workbook.
    pub version: Option<String>,
    /// The application that wrote it.
    pub application: Option<String>,
    /// That application's version, the low half in at least four digits: `12.0000`.
    pub app_version: Option<String>,
    /// The company.
    pub company: Option<String>,
    /// The template.
    pub template: Option<String>,
    /// The manager.
    pub manager: Option<String>,
    /// The custom properties by their names; here an empty text is kept.
    pub custom_properties: BTreeMap<String, String>,
}

// FMTID_SummaryInformation, FMTID_DocSummaryInformation and FMTID_UserDefinedProperties.
static SUMMARY: [u8; 16] = [
    0xE0, 0x85, 0x9F, 0xF2, 0xF9, 0x4F, 0x68, 0x10, 0xAB, 0x91, 0x08, 0x00, 0x2B, 0x27, 0xB3, 0xD9,
];

static DOCUMENT: [u8; 16] = [
    0x02, 0xD5, 0xCD, 0xD5, 0x9C, 0x2E, 0x1B, 0x10, 0x93, 0x97, 0x08, 0x00, 0x2B, 0x2C, 0xF9, 0xAE,
];

static CUSTOM: [u8; 16] = [
    0x05, 0xD5, 0xCD, 0xD5, 0x9C, 0x2E, 0x1B, 0x10, 0x93, 0x97, 0x08, 0x00, 0x2B, 0x2C, 0xF9, 0xAE,
];

// Sets a field to the text of a number's last entry.
fn set_field(
    field: &mut Option<String>,
    alloc: Global,
    section: &Section<'_>,
    number: u32,
) -> Result<(), AllocError>
    ensures { IfOk result (λ _. Shows (field_of number section.now) field.new) }
{
    *field = section.field(alloc, number)?;
    Ok(())
}

impl WorkbookProperties {
    // None yet.
    fn none(alloc: Global) -> WorkbookProperties {
        WorkbookProperties {
            creator: None,
            last_modified_by: None,
            created: None,
            modified: None,
            title: None,
            subject: None,
            description: None,
            keywords: None,
            category: None,
            content_status: None,
            revision: None,
            version: None,
            application: None,
            app_version: None,
            company: None,
            template: None,
            manager: None,
            custom_properties: BTreeMap::new(alloc),
        }
    }

    // Sets the fields of a summary section.
    fn set_summary(&mut self, alloc: Global, section: &Section<'_>) -> Result<(), AllocError>
        ensures { IfOk result (λ _. IsSummary section.now self.new) }
    {
        set_field(&mut self.title, alloc, section, 0x02)?;
        set_field(&mut self.subject, alloc, section, 0x03)?;
        set_field(&mut self.creator, alloc, section, 0x04)?;
        set_field(&mut self.keywords, alloc, section, 0x05)?;
        set_field(&mut self.description, alloc, section, 0x06)?;
        set_field(&mut self.template, alloc, section, 0x07)?;
        set_field(&mut self.last_modified_by, alloc, section, 0x08)?;
        set_field(&mut self.revision, alloc, section, 0x09)?;
        set_field(&mut self.created, alloc, section, 0x0C)?;
        set_field(&mut self.modified, alloc, section, 0x0D)?;
        set_field(&mut self.application, alloc, section, 0x12)?;
        Ok(())
    }

    // Takes the fields of a summary section.
    fn take_summary(&mut self, alloc: Global, bytes: &[u8]) -> Result<(), AllocError>
        ensures { IfOk result (λ _. IsSummary bytes.now self.new) }
    {
        let section = Section::new(alloc, bytes)?;
        self.set_summary(alloc, &section)?;
        Ok(())
    }

    // Sets the fields of a document section, and leaves those of a summary.
    fn set_document(&mut self, alloc: Global, section: &Section<'_>) -> Result<(), AllocError>
        ensures fields { IfOk result (λ _. IsDocument section.now self.new) }
        ensures others { IfOk result (λ _. (summary : List ℕ) → IsSummary summary self.old → IsSummary summary self.new) }
    {
        set_field(&mut self.category, alloc, section, 0x02)?;
        set_field(&mut self.manager, alloc, section, 0x0E)?;
        set_field(&mut self.company, alloc, section, 0x0F)?;
        set_field(&mut self.content_status, alloc, section, 0x1B)?;
        set_field(&mut self.version, alloc, section, 0x1D)?;
        self.app_version = section.app_version(alloc)?;
        Ok(())
    }

    // Takes the fields of a document section, and leaves those of a summary.
    fn take_document(&mut self, alloc: Global, bytes: &[u8]) -> Result<(), AllocError>
        ensures fields { IfOk result (λ _. IsDocument bytes.now self.new) }
        ensures others { IfOk result (λ _. (summary : List ℕ) → IsSummary summary self.old → IsSummary summary self.new) }
    {
        let section = Section::new(alloc, bytes)?;
        self.set_document(alloc, &section)?;
        Ok(())
    }

    // Takes the custom properties, and leaves all else.
    fn take_custom(&mut self, alloc: Global, bytes: &[u8]) -> Result<(), AllocError>
        ensures customs { IfOk result (λ _. HasLast self.new.custom_properties (customs_in bytes.now)) }
        ensures others { IfOk result (λ _. (summary document : List ℕ) → IsSummary summary self.old → IsDocument document self.old
            → IsSummary summary self.new × IsDocument document self.new) }
    {
        let section = Section::new(alloc, bytes)?;
        self.custom_properties = section.customs(alloc)?;
        Ok(())
    }

    // Takes the properties of both streams.
    fn take(
        &mut self,
        alloc: Global,
        summary: Option<&[u8]>,
        document: Option<&[u8]>,
    ) -> Result<(), AllocError>
        ensures { IfOk result (λ _. IsProperties (option_map (λ x. x.now) summary.entry)
            (option_map (λ x. x.now) document.entry) self.new) }
    {
        self.take_summary(alloc, section_from(&SUMMARY, summary))?;
        self.take_document(alloc, section_from(&DOCUMENT, document))?;
        self.take_custom(alloc, section_from(&CUSTOM, document))?;
        Ok(())
    }
}

/// The properties in the summary stream and the document stream of a workbook file ([MS-OLEPS]).
/// The custom ones stand in the document stream. A damaged stream is no error: what can't be read
/// is none. Only running out of memory refuses.
pub fn workbook_properties_of(
    alloc: Global,
    summary: Option<&[u8]>,
    document: Option<&[u8]>,
) -> Result<WorkbookProperties, AllocError>
    ensures { IfOk result (IsProperties (option_map (λ x. x.now) summary.entry)
        (option_map (λ x. x.now) document.entry)) }
{
    let mut properties = WorkbookProperties::none(alloc);
    properties.take(alloc, summary, document)?;
    Ok(properties)
}

//! Whole projects, and each public call once with ample memory.

mod sample;

use crate::{macros_of, write_macros};
use sample::{Sample, file_of};
use std::alloc::{AllocError, Global};
use std::test::Fail;
use xls_container::Container;
use xls_output::MemorySink;
use xls_readable::Form;

static LISTING: &[u8] =
    b"ID=\"{917DED54-440B-4FD1-A5C1-74ACF261E600}\"\r\nDocument=Sheet1/&H00000000\r\nModule=module1\r\nClass=Class1\r\nName=\"VBAProject\"\r\n\r\n[Workspace]\r\nClass1=25, 25, 1439, 639, \r\n";

static MODULES: [Sample; 3] = [
    Sample {
        name: "Sheet1",
        offset: 5,
        source: b"Attribute VB_Name = \"Sheet1\"\r\n",
    },
    Sample {
        name: "Module1",
        offset: 5,
        source: b"Sub Caf\xE9()\r\n  ' a\tb\rEnd Sub",
    },
    Sample {
        name: "Class1",
        offset: 5,
        source: b"Option Explicit\r\n\r\n",
    },
];

static TEXT: &str =
    "module\tClass1\nOption Explicit\n\nmodule\tModule1\nSub Café()\n  ' a\tb\nEnd Sub\nmodule\tSheet1\nAttribute VB_Name = \"Sheet1\"\n";

static OBJECTS: &str =
    "{\"line\":\"module\",\"name\":\"Class1\",\"kind\":\"class\",\"source\":\"Option Explicit\\n\\n\"}\n{\"line\":\"module\",\"name\":\"Module1\",\"kind\":\"module\",\"source\":\"Sub Café()\\n  ' a\\tb\\nEnd Sub\\n\"}\n{\"line\":\"module\",\"name\":\"Sheet1\",\"kind\":\"document\",\"source\":\"Attribute VB_Name = \\\"Sheet1\\\"\\n\"}\n";

// Without the stream PROJECT each is a module of procedures.
static UNNAMED: &str =
    "{\"line\":\"module\",\"name\":\"Class1\",\"kind\":\"module\",\"source\":\"Option Explicit\\n\\n\"}\n{\"line\":\"module\",\"name\":\"Module1\",\"kind\":\"module\",\"source\":\"Sub Café()\\n  ' a\\tb\\nEnd Sub\\n\"}\n{\"line\":\"module\",\"name\":\"Sheet1\",\"kind\":\"module\",\"source\":\"Attribute VB_Name = \\\"Sheet1\\\"\\n\"}\n";

// A source past the end of its stream, one that isn't there, and one whose offset is wrong.
static DAMAGED: [Sample; 3] = [
    Sample {
        name: "A",
        offset: 900,
        source: b"x",
    },
    Sample {
        name: "B",
        offset: 0,
        source: b"",
    },
    Sample {
        name: "C",
        offset: 4,
        source: b"x",
    },
];

static FAULTS: &str =
    "damaged\tmodule\tA\tText offset 900 past the end of a stream of 10 bytes\ndamaged\tmodule\tB\tthe project has no stream of its name, B\ndamaged\tmodule\tC\tInvalid container signature AA at byte 0\n";

// What is written of a file, or why nothing is.
fn said(alloc: Global, file: &[u8], form: Form) -> Result<String, AllocError> {
    let mut sink = MemorySink::new(alloc, 4096, 100, Vec::new(alloc))?;
    let container = match Container::open(alloc, file) {
        Ok(container) => container,
        Err(fault) => return fault.to_string(alloc),
    };
    let macros = match macros_of(alloc, &container) {
        Ok(Some(macros)) => macros,
        Ok(None) => return String::from_str(alloc, "none"),
        Err(fault) => return fault.to_string(alloc),
    };
    match write_macros(alloc, &mut sink, form, &macros) {
        Ok(()) => String::from_utf8_lossy(alloc, sink.as_slice()),
        Err(_) => String::from_str(alloc, "stopped"),
    }
}

#[test]
fn writes_the_sources_by_their_names(rt: HostRuntime) -> Result<(), Fail> {
    let alloc = rt.alloc();
    let file = file_of(alloc, Some(LISTING), &MODULES)?;
    let text = said(alloc, &file, Form::Text)?;
    assert!(rt; text.as_str() == TEXT, "{text}");
    let text = said(alloc, &file, Form::Exact)?;
    assert!(rt; text.as_str() == TEXT, "{text}");
    let text = said(alloc, &file, Form::Json)?;
    assert!(rt; text.as_str() == OBJECTS, "{text}");
    Ok(())
}

#[test]
fn knows_no_kind_without_the_stream_of_the_project(rt: HostRuntime) -> Result<(), Fail> {
    let alloc = rt.alloc();
    let file = file_of(alloc, None, &MODULES)?;
    let text = said(alloc, &file, Form::Text)?;
    assert!(rt; text.as_str() == TEXT, "{text}");
    let text = said(alloc, &file, Form::Json)?;
    assert!(rt; text.as_str() == UNNAMED, "{text}");
    Ok(())
}

#[test]
fn tells_of_each_module_that_is_not_read(rt: HostRuntime) -> Result<(), Fail> {
    let alloc = rt.alloc();
    let file = file_of(alloc, Some(LISTING), &DAMAGED)?;
    let text = said(alloc, &file, Form::Text)?;
    assert!(rt; text.as_str() == FAULTS, "{text}");
    Ok(())
}

//! The lines of a compound file's streams.

ghost use Rattle.std.specs.Prelude.{◌≡◌, ◌∷◌, []};
ghost use Rattle.xls_compound.specs.Entries.{entries_from};
ghost use Rattle.xls_documents.specs.Streams.{IsEntryText, IsStream, PutsEntries};
ghost use Rattle.xls_output.specs.Each.{DeliversEach, text_output};

use crate::line::{count_member, text_member};
use std::alloc::Global;
use xls_compound::{Compound, Entries, Entry};
use xls_output::{OutputText, Sink, Stop, Writer};
use xls_readable::{Form, push_line};

// Puts the line of a stream.
fn put_stream<K: Sink>(
    form: Form,
    alloc: Global,
    out: &mut Writer<'_, K, OutputText>,
    entry: &Entry<'_>,
) -> Result<(), Stop>
    requires { IsStream entry.now }
    ensures { PutsEntries form (entry.now ∷ []) (text_output K.state out.old) (text_output K.state out.new) result }
{
    let path = entry.path(alloc)?.join(alloc, "/")?;
    let members = [
        count_member("size", entry.size()),
        text_member("path", path.as_str()),
    ];
    let buffer = &mut *out.buffer;
    push_line(
        form,
        "stream",
        &members,
        &mut buffer.scratch,
        &mut buffer.text,
    )?;
    out.pass()
}

// Puts the line of an entry, if it is a stream.
fn put_entry<K: Sink>(
    form: Form,
    alloc: Global,
    out: &mut Writer<'_, K, OutputText>,
    entry: &Entry<'_>,
) -> Result<(), Stop>
    ensures { PutsEntries form (entry.now ∷ []) (text_output K.state out.old) (text_output K.state out.new) result }
{
    if entry.is_stream() {
        return put_stream(form, alloc, out, entry);
    }
    Ok(())
}

// Puts the lines of entries, in their order.
fn put_entries<K: Sink>(
    form: Form,
    alloc: Global,
    out: &mut Writer<'_, K, OutputText>,
    entries: Entries<'_>,
) -> Result<(), Stop>
    ensures { PutsEntries form entries.entry (text_output K.state out.old) (text_output K.state out.new) result }
{
    for entry in entries {
        put_entry(form, alloc, out, &entry)?;
    }
    Ok(())
}

/// Writes what a compound file lists: a line `stream` for each stream, in the order of the directory's tree, with
/// its size in bytes and its path, that is the names of the storages that hold it, the outermost first, and its own,
/// separated by `/`. At a refusal of the sink, or where memory runs out, a prefix of these lines was written.
pub fn write_streams<K: Sink>(
    alloc: Global,
    sink: &mut K,
    form: Form,
    compound: &Compound<'_>,
) -> Result<(), Stop>
    ensures { DeliversEach (IsEntryText form) (entries_from compound.now.listing 0)
        (K.state sink.old) (K.state sink.new) result }
{
    let mut buffer = OutputText::new(alloc);
    let mut out = Writer::new(&mut buffer, sink);
    put_entries(form, alloc, &mut out, compound.streams())?;
    out.finish()
}

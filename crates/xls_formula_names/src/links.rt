//! What another program gives, by a program and a topic.

ghost use Rattle.std.specs.Prelude.{◌≡◌, ◌∷◌, ◌++◌, [], ◌<◌, true, false, map, IfOk, OnOk, OnErr, MatchOption, None, Some};
ghost use Rattle.std.specs.Option.{option_map};
ghost use Rattle.std.specs.Str.{chars};
ghost use Rattle.std.specs.String.{string_bytes};
ghost use Rattle.xls_bytes.specs.Growth.{IsGrown};
ghost use Rattle.xls_formula_names.specs.Prefixes.{name_text};
ghost use Rattle.xls_formula_names.specs.Links.{barred_one, link_of, link_prefix, link_texts};

use crate::appends::append_parts;
use crate::quotes::needs_quotes;
use std::alloc::{AllocError, Global};
use xls_bytes::{first_char, split_at_first};

fn barred_one(c: char) -> char
    ensures { result ≡ barred_one c }
{
    if c == '\u{3}' { '|' } else { c }
}

fn with_bars(alloc: Global, topic: &str) -> Result<String, AllocError>
    ensures { IfOk result (λ text. chars (string_bytes text) ≡ map barred_one (chars topic.now)) }
{
    let mut text = String::new(alloc);
    let mut left = topic;
    'characters: while let Some((c, rest)) = first_char(left) {
        text.push(barred_one(c))?;
        left = rest;
    }
    Ok(text)
}

// In these functions an error may leave a part of the text.
fn append_name(name: &str, out: &mut String) -> Result<(), AllocError>
    ensures ok { OnOk result (chars (string_bytes out.new) ≡ chars (string_bytes out.old) ++ name_text (chars name.now)) }
    ensures grown { IsGrown (string_bytes out.old) (string_bytes out.new) }
{
    append_parts(&[name], needs_quotes(name), out)
}

fn append_bar(out: &mut String) -> Result<(), AllocError>
    ensures ok { OnOk result (chars (string_bytes out.new) ≡ chars (string_bytes out.old) ++ 0x7C ∷ []) }
    ensures grown { IsGrown (string_bytes out.old) (string_bytes out.new) }
{
    out.push_str("|")
}

fn append_link(app: &str, topic: &str, out: &mut String) -> Result<(), AllocError>
    ensures ok { OnOk result (chars (string_bytes out.new)
        ≡ chars (string_bytes out.old) ++ link_prefix (chars app.now) (chars topic.now)) }
    ensures grown { IsGrown (string_bytes out.old) (string_bytes out.new) }
{
    append_name(app, out)?;
    append_bar(out)?;
    append_name(topic, out)
}

/// Appends the prefix of what another program gives, without the `!`: `APP|TOPIC`, each between apostrophes where it needs them. Only running
/// out of memory refuses, and then `out` is as it was.
pub fn push_link(app: &str, topic: &str, out: &mut String) -> Result<(), AllocError>
    ensures ok { OnOk result (chars (string_bytes out.new)
        ≡ chars (string_bytes out.old) ++ link_prefix (chars app.now) (chars topic.now)) }
    ensures err { OnErr result (string_bytes out.new ≡ string_bytes out.old) }
{
    let before = out.len();
    let done = append_link(app, topic, out);
    if done.is_err() {
        out.truncate(before);
    }
    done
}

/// A program and a topic of it.
#[derive(Debug, Drop)]
pub struct Link {
    /// The program.
    pub app: String,
    /// The topic, with a bar for each 03.
    pub topic: String,
}

// What stands before and behind the 03 of a path that isn't a workbook's.
fn split_link(path: &str) -> Option<(&str, &str)>
    ensures { MatchOption result (link_of (chars path.now) ≡ None)
        (λ x. link_of (chars path.now) ≡ Some (chars x.0.now, map barred_one (chars x.1.now))) }
{
    let (first, _) = first_char(path)?;
    if first < '\u{3}' {
        return None;
    }
    split_at_first(path, '\u{3}')
}

impl Link {
    /// The program and the topic of a path, as a SupBook or an ExternSheet record has it ([MS-XLS] VirtualPath); `None` for the path of a
    /// workbook. Only running out of memory refuses.
    pub fn read(alloc: Global, path: &str) -> Result<Option<Link>, AllocError>
        ensures exact { IfOk result (λ found. option_map link_texts found ≡ link_of (chars path.now)) }
    {
        let Some((app, topic)) = split_link(path) else {
            return Ok(None);
        };
        Ok(Some(Link {
            app: String::from_str(alloc, app)?,
            topic: with_bars(alloc, topic)?,
        }))
    }
}

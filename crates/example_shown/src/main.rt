// Reads rows of a number format's code, the bits of a double in hexadecimal or a quote and a text, and a
// date system, separated by tabs, and prints what Excel shows of each.
#![tactic(auto)]

use std::alloc::{AllocError, Global};
use std::io;
use xls_bytes::split_at_first;
use xls_shown::ShownFormat;

const FRACTION: u64 = 1 << 52;

const INFINITE: u64 = 2047;

// Appends what a row shows; nothing of a number that is not finite.
fn append_row(
    alloc: Global,
    code: &str,
    value: &str,
    is_1904: bool,
    text: &mut String,
) -> Result<(), AllocError> {
    let format = ShownFormat::new(alloc, code)?;
    if let Some((_, shown)) = split_at_first(value, '"') {
        return format.push_text(shown, text);
    }
    match u64::from_str_radix(value, 16) {
        Ok(bits) if bits / FRACTION % 2048 != INFINITE => format.push(bits, is_1904, text),
        _ => Ok(()),
    }
}

fn main(rt: HostRuntime) -> io::Result<()> {
    for line in rt.lines(rt.alloc()) {
        let line = line?;
        if let Some((code, rest)) = split_at_first(line.as_str(), '\t') {
            if let Some((value, system)) = split_at_first(rest, '\t') {
                let mut text = String::new(rt.alloc());
                append_row(rt.alloc(), code, value, system == "1904", &mut text)?;
                println!(rt; "{text}")?;
            }
        }
    }
    Ok(())
}

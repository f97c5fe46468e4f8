//! One call of the library by itself, over what comes on standard input, for `bench/`.
#![tactic(auto)]

mod decimals;
mod formula;
mod strings;

use crate::decimals::answers;
use crate::formula::spelled;
use crate::strings::count_strings;
use anyhow::{Result, bail};
use std::env;
use std::io::Read;

fn main(rt: HostRuntime) -> Result<()> {
    let alloc = rt.alloc();
    let words = env::args(&rt)?.collect::<Vec<String>>(alloc)?;
    let [_, call] = words.as_slice() else {
        bail!("the word is `strings`, `formula` or `decimals`");
    };
    let mut bytes = Vec::new(alloc);
    rt.stdin().read_to_end(&mut bytes)?;
    match call.as_str() {
        "strings" => match count_strings(alloc, &bytes) {
            Ok(count) => println!(rt; "{count}")?,
            Err(error) => bail!("{error}"),
        },
        "formula" => match spelled(alloc, &bytes) {
            Ok(text) => println!(rt; "{text}")?,
            Err(error) => bail!("{error}"),
        },
        "decimals" => match answers(alloc, std::str::from_utf8(&bytes)?)? {
            Some(text) => print!(rt; "{text}")?,
            None => bail!("a line is `d`, `t0`, `t4` or `u`, a space and the bits in hexadecimal"),
        },
        other => bail!("no call `{other}`"),
    }
    Ok(())
}

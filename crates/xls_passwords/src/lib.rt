//! Encrypted workbook streams: the plain stream of one, where a password fits.
#![tactic(auto)]

mod keys;
mod laws;
mod opening;
mod passwords;
mod plain;
mod rc4;
mod records;
mod scheme;
#[cfg(test)]
mod tests;
mod xor;

pub use keys::BlockKeys;
pub use laws::{keeps_length, keeps_records, records_are_all, xors_back};
pub use opening::{Refusal, plain_stream};
pub use passwords::Key;
pub use plain::make_plain;
pub use records::{FilePass, file_pass};
pub use scheme::{FilePassFault, Scheme};

//! Tests of compound files.
#![tactic(auto)]

#[cfg(test)]
mod files;
#[cfg(test)]
mod sample;

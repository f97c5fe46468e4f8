//! Tests of the work of both programs.
#![tactic(auto)]

#[cfg(test)]
mod dump;
#[cfg(test)]
mod files;
#[cfg(test)]
mod host;
#[cfg(test)]
mod runs;

//! Tests of strings, records, formulas and the cells that they cite.
#![tactic(auto)]

#[cfg(test)]
mod answers;
#[cfg(test)]
mod biff;
#[cfg(test)]
mod formula;
#[cfg(test)]
mod functions;
#[cfg(test)]
mod ptg;
#[cfg(test)]
mod refs;
#[cfg(test)]
mod strings;

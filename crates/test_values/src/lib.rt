//! Tests of values, ranges, rows and properties.
#![tactic(auto)]

#[cfg(test)]
mod bytes;
#[cfg(test)]
mod data;
#[cfg(test)]
mod decimals;
#[cfg(test)]
mod ovba;
#[cfg(test)]
mod props;
#[cfg(test)]
mod range;
#[cfg(test)]
mod readable;
#[cfg(test)]
mod rows;
#[cfg(test)]
mod text;
#[cfg(test)]
mod vba;

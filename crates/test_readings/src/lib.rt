//! Tests of code pages, of rounding by 15 digits, of number formats, of numbers and dates as shown, and of names in formulas.
#![tactic(auto)]

#[cfg(test)]
mod dates;
#[cfg(test)]
mod formats;
#[cfg(test)]
mod names;
#[cfg(test)]
mod numbers;
#[cfg(test)]
mod pages;
#[cfg(test)]
mod rounding;
#[cfg(test)]
mod shown;

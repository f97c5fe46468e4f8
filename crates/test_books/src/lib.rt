//! Tests of workbooks, their CSV, their arrays and their canonical streams.
#![tactic(auto)]

#[cfg(test)]
mod arrays;
#[cfg(test)]
mod book;
#[cfg(test)]
mod csv_rows;
#[cfg(test)]
mod lay;
#[cfg(test)]
mod sample;

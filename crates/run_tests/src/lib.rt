//! Tests of complete runs, and of the program's library with a command line.
//!
//! The expected values were worked out by hand from the manual of GNU M4 and from the pages in docs/.
#![tactic(auto)]

#[cfg(test)]
mod runs;
#[cfg(test)]
mod tool;

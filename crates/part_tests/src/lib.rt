//! Tests of the parts of a run: the state of a macro processor and the devices, frozen files, the
//! input with its tokens, expressions, and calls.
//!
//! Each row of a test has a name, the steps, and the expected report. The reports were worked out by hand
//! from the manual of GNU M4 and from the frozen file format.
#![tactic(auto)]

/// Expands to a table of rows: each has its columns, and after an arrow the last one, which is expected.
#[cfg(test)]
macro_rules! rows {
    ($($($column:expr),+ => $want:expr;)*) => {
        [$(($($column,)+ $want)),*]
    };
}

/// Expands to a table of rows of steps: of each its name and its steps, and after an arrow what they report.
#[cfg(test)]
macro_rules! step_rows {
    ($($name:literal, [$($step:ident $(($($argument:expr),*))?),*] => $want:expr;)*) => {
        [$(($name, &[$(Step::$step $(($($argument),*))?),*], $want)),*]
    };
}

#[cfg(test)]
mod builtins;
#[cfg(test)]
mod devices;
#[cfg(test)]
mod eval;
#[cfg(test)]
mod frozen;
#[cfg(test)]
mod given;
#[cfg(test)]
mod input;
pub mod names_of_m4;
#[cfg(test)]
mod refused;
pub mod report;
#[cfg(test)]
mod shows;
#[cfg(test)]
mod state;

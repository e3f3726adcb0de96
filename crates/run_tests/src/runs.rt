//! Complete runs over sources in memory, and sessions call by call.
//! Manual: "Invoking m4", "Command line files", and the chapters on macros and builtins.

/// Expands to the files of a row: a list, or the text of the only one.
macro_rules! files {
    ([$($file:expr),*]) => { &[$($file),*] };
    ($text:expr) => { &[$crate::runs::rows::Given::File($text)] };
}

/// Expands to rows: of each its name, its files, and its output; and then each other field that it has.
macro_rules! rows {
    ($($name:literal, $files:tt => $output:expr $(, $field:ident: $value:expr)*;)*) => {
        [$($crate::runs::rows::Row {
            name: $name,
            files: files!($files),
            output: $output,
            $($field: $value,)*
            ..$crate::runs::rows::QUIET
        }),*]
    };
}

mod endings;
mod files;
mod freezing;
pub mod given;
mod limits;
mod prefixed;
mod refused;
mod report;
mod rows;
mod scale;
mod seams;
mod sessions;
pub mod shows;
mod sources;
mod stacks;
mod sweeps;
mod texts;
mod whole_texts;
mod wrapped;

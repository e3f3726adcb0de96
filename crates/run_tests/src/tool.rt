//! The command line and the modes, of `m4_tool`: tables of rows, with one helper for each table.

/// Expands to files of a world in memory: of each its name and its bytes, and then each other field that it has.
macro_rules! world {
    ($($name:literal => $bytes:literal $(, $field:ident: $value:expr)*;)*) => {
        [$(Given { name: $name, bytes: $bytes, $($field: $value,)* ..WHOLE }),*]
    };
}

/// Expands to lines: of each its name, its words after the name of the program, and its output; and then each other
/// field that it has.
macro_rules! lines {
    ($($name:literal, [$($word:literal),*] => $output:literal $(, $field:ident: $value:expr)*;)*) => {
        [$(Row {
            name: $name,
            words: &["m4r" $(, $word)*],
            output: $output,
            $($field: $value,)*
            ..QUIET
        }),*]
    };
}

mod failing;
mod following;
mod late;
mod lines;
mod modes;
mod refused;
mod texts;
mod worlds;

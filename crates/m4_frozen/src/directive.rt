//! The directives of a frozen file: the lines after its version.
//!
//! Contracts see a directive by `directive_of` (`specs/DirectiveView.antt`): its bytes, without
//! their place in the file. Manual: "Frozen file format".

/// A directive. Its strings borrow from the bytes of the file.
#[derive(Clone, Copy)]
pub enum Directive<'a> {
    /// `Q`: the quotes' begin and end.
    Quotes(&'a [u8], &'a [u8]),
    /// `C`: the comments' begin and end.
    Comments(&'a [u8], &'a [u8]),
    /// `T`: a name with the text that is pushed on it directly after it, and the name's length.
    Text(&'a [u8], usize),
    /// `F`: a name, and the name of the builtin that is pushed on it.
    Builtin(&'a [u8], &'a [u8]),
    /// `D`: the number of a diversion, and the text that is added to it.
    Diversion(i32, &'a [u8]),
}

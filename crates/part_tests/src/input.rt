//! The input: the tokens of texts, the other calls on an input, and a look at the front of a text.
//! Manual: "Lexical and syntactic conventions", "Changing the quote characters", "Deleting whitespace
//! in input", "How m4 copies input to output".

/// Expands to rows of steps, with the fields of a usual row that comes first: of each its name, its file and its steps,
/// and after an arrow their results; and then each other field that it has.
macro_rules! input_rows {
    ($usual:ident:
     $($name:literal, $file:expr, [$($step:ident $(($argument:expr))?),*] => $want:expr
       $(, $field:ident: $value:expr)*;)*) => {
        [$($crate::input::steps::Row {
            name: $name,
            file: $file,
            steps: &[$($crate::input::steps::Step::$step $(($argument))?),*],
            want: $want,
            $($field: $value,)*
            ..$crate::input::steps::$usual
        }),*]
    };
}

mod blocks;
mod calls;
mod delims;
mod looks;
mod pieces;
mod steps;
mod tokens;

use crate::given::describe_definition;
use crate::report::{Report, printed};
use crate::shows::shows;
use m4_input::fault::InputFault;
use m4_input::token::Token;

// How many bytes a reader returns at a time.
const BLOCKS: [usize; 4] = [1, 2, 3, 4096];

// Adds a token: its kind and its text.
fn describe(token: &Token, report: &mut Report) {
    match token {
        Token::Name(name) => report.pair(b"name ", name.as_slice()),
        Token::Str(string) => report.pair(b"string ", string.as_slice()),
        Token::Comment(comment) => report.pair(b"comment ", comment.as_slice()),
        Token::Byte(byte) => report.pair(b"byte ", &[*byte]),
        Token::Definition(definition) => describe_definition(definition, report),
        Token::End => report.add(b"end"),
    }
    report.add(b"\n");
}

// Adds a fault, with the line that it names.
fn describe_fault(fault: InputFault, report: &mut Report) {
    match fault {
        InputFault::EndInString { line } => {
            report.counted(b"end in string of line ", line as usize);
        }
        InputFault::EndInComment { line } => {
            report.counted(b"end in comment of line ", line as usize);
        }
        InputFault::Read => report.add(b"read fault"),
        InputFault::OutOfMemory => report.refuse(),
    }
    report.add(b"\n");
}

#[test]
fn faults_are_printed(rt: HostRuntime) {
    let got = printed(rt.alloc(), &InputFault::EndInString { line: 3 });
    shows(&rt, "a string without an end", b"I1 EndInString", got);
}

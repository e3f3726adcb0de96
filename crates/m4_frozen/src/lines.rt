//! Empty lines and comment lines, which are skipped.
//!
//! Manual: "Frozen file format".

ghost use Rattle.m4_frozen.specs.Underway.{Skips};

/// Skips empty lines and comment lines. Returns whether the bytes end inside a comment, and the bytes
/// after the lines. `inside`: the bytes begin inside a comment.
pub(crate) fn skip_lines(inside: bool, bytes: &[u8]) -> (bool, &[u8])
    ensures { Skips inside bytes.now result.0 result.1.now }
{
    let mut in_comment = inside;
    for (i, b) in bytes.iter().enumerate() {
        if in_comment {
            in_comment = *b != b'\n';
        } else if *b == b'#' {
            in_comment = true;
        } else if *b != b'\n' {
            return (false, bytes.split_at(i).1);
        }
    }
    (in_comment, &[])
}

//! White space: space, tab, newline, vertical tab, form feed, carriage return.
//! Manual: "Macro arguments".

ghost use Rattle.std.specs.Prelude.{◌≡◌, ◌≤◌, length};
ghost use Rattle.std.specs.List.{list_all};
ghost use Rattle.m4_input.specs.Ascii as ascii;
ghost use Rattle.m4_input.specs.Token.{run_length};

/// Returns whether a byte is white space.
pub(crate) fn is_space(byte: u8) -> bool
    ensures { result ≡ ascii.is_space byte }
{
    byte == b' ' || (9 <= byte && byte <= 13)
}

/// Counts the bytes of white space at the start.
pub fn spaces_len(bytes: &[u8]) -> usize
    ensures value { result ≡ run_length ascii.is_space bytes.now }
    ensures within { result ≤ length bytes.now }
{
    let mut k = 0;
    while k < bytes.len() && is_space(bytes[k]) {
        k += 1;
    }
    k
}

/// Returns whether a text is empty or only white space.
pub fn is_blank(text: &[u8]) -> bool
    ensures { result ≡ list_all ascii.is_space text.now }
{
    text.iter().all(|byte| is_space(*byte))
}

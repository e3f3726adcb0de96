//! A pair of delimiters, of quotes or of comments.

ghost use Rattle.std.specs.Prelude.{◌≡◌, ◌<◌, ◌^◌, [], get_or, length, IfOk};

use std::alloc::{AllocError, Global};
use std::marker::Model;

/// A number that no byte has.
const NO_BYTE: u16 = 256;

/// The bytes of a begin or an end. They are always in a buffer, so that a look at them takes no test of where they are.
/// The first byte is also kept as a number, so that one comparison decides whether a byte may begin the delimiter.
#[derive(Drop)]
pub struct Delimiter {
    first: u16,
    bytes: Vec<u8>,
}

impl Model for Delimiter {
    ghost use Rattle.std.specs.Prelude.{◌≡◌, List, ℕ, get_or};

    ghost Value = { List ℕ };

    ghost view = { λ d. d.bytes.items };

    ghost invariant = { λ d. d.first ≡ get_or d.bytes.items 0 256 };
}

/// Returns the first of some bytes as a number; `NO_BYTE` if there are none.
fn first_number(bytes: &[u8]) -> u16
    ensures { result ≡ get_or bytes.now 0 256 }
{
    match bytes.first() {
        Some(byte) => *byte as u16,
        None => NO_BYTE,
    }
}

impl Delimiter {
    /// Copies the bytes.
    fn from_slice(alloc: Global, bytes: &[u8]) -> Result<Delimiter, AllocError>
        ensures { IfOk result (λ d. d ≡ bytes.now) }
    {
        let mut kept = Vec::new(alloc);
        kept.extend_from_slice(bytes)?;
        Ok(Delimiter {
            first: first_number(bytes),
            bytes: kept,
        })
    }

    /// Returns the first byte as a number; one that no byte has if there are none.
    #[inline(always)]
    pub fn first(&self) -> u16
        ensures { result ≡ get_or self.now 0 256 }
    {
        self.first
    }

    /// Returns the bytes.
    #[inline(always)]
    pub fn as_slice(&self) -> &[u8]
        ensures { result.now ≡ self.now }
    {
        self.bytes.as_slice()
    }
}

/// The begin and the end of a quoted string, or of a comment. Both are empty if it is disabled.
#[derive(Drop)]
pub struct Delimiters {
    pub begin: Delimiter,
    pub end: Delimiter,
}

impl Delimiters {
    ghost use Rattle.m4_state.specs.Delimiters.{default_quotes, default_comments, chosen, IsPaired, IsSizedPair};

    /// Copies a begin and an end.
    fn copied(alloc: Global, begin: &[u8], end: &[u8]) -> Result<Delimiters, AllocError>
        ensures { IfOk result (λ d. d ≡ record { begin = begin.now; end = end.now }) }
    {
        Ok(Delimiters {
            begin: Delimiter::from_slice(alloc, begin)?,
            end: Delimiter::from_slice(alloc, end)?,
        })
    }

    /// Returns the quotes of a new state: a backquote and an apostrophe.
    pub(crate) fn default_quotes(alloc: Global) -> Result<Delimiters, AllocError>
        ensures { IfOk result (λ d. d ≡ default_quotes) }
    {
        Delimiters::copied(alloc, b"`", b"'")
    }

    /// Returns the comment delimiters of a new state: a number sign and a newline.
    pub(crate) fn default_comments(alloc: Global) -> Result<Delimiters, AllocError>
        ensures { IfOk result (λ d. d ≡ default_comments) }
    {
        Delimiters::copied(alloc, b"#", b"\n")
    }

    /// Returns quotes with this begin and end.
    pub(crate) fn chosen_quotes(
        alloc: Global,
        begin: &[u8],
        end: &[u8],
    ) -> Result<Delimiters, AllocError>
        ensures chosen { IfOk result (λ d. d ≡ chosen default_quotes begin.now end.now) }
        ensures valid { IfOk result (λ d. IsPaired d × IsSizedPair d) }
    {
        Delimiters::with_default(alloc, begin, end, b"'")
    }

    /// Returns comment delimiters with this begin and end.
    pub(crate) fn chosen_comments(
        alloc: Global,
        begin: &[u8],
        end: &[u8],
    ) -> Result<Delimiters, AllocError>
        ensures chosen { IfOk result (λ d. d ≡ chosen default_comments begin.now end.now) }
        ensures valid { IfOk result (λ d. IsPaired d × IsSizedPair d) }
    {
        Delimiters::with_default(alloc, begin, end, b"\n")
    }

    /// Returns delimiters; if only the end is empty, it is the default end.
    fn with_default(
        alloc: Global,
        begin: &[u8],
        end: &[u8],
        default_end: &[u8],
    ) -> Result<Delimiters, AllocError>
        requires { (0 < length default_end.now) × (length default_end.now < 2 ^ 64) }
        ensures chosen { IfOk result (λ d. d
            ≡ chosen (record { begin = []; end = default_end.now }) begin.now end.now) }
        ensures valid { IfOk result (λ d. IsPaired d × IsSizedPair d) }
    {
        let end = if begin.is_empty() {
            &[]
        } else if end.is_empty() {
            default_end
        } else {
            end
        };
        Delimiters::copied(alloc, begin, end)
    }
}

//! Byte strings by words of eight bytes. Most names and arguments are short, and to compare their bytes one by one
//! takes longer.

ghost use Rattle.std.specs.Prelude.{◌≡◌, ◌+◌, ◌≤◌, length, take, drop, nat_eq};
ghost use Rattle.std.specs.Cmp.Lexicographic.{pointwise};
ghost use Rattle.m4_state.specs.ByteWords.{word, AreBytes};

/// How many bytes a word has.
pub(crate) const WORD: usize = 8;

/// Returns whether two byte strings are equal.
#[inline(always)]
pub fn are_equal(a: &[u8], b: &[u8]) -> bool
    ensures { result ≡ pointwise nat_eq a.now b.now }
{
    if a.len() != b.len() {
        return false;
    }
    if a.len() < WORD {
        return are_few_equal(a, b);
    }
    let last = a.len() - WORD;
    let mut k = 0;
    while k < last {
        if word_at(a, k) != word_at(b, k) {
            return false;
        }
        k += WORD;
    }
    // The last word has bytes of the one before it, if the length is no multiple of eight.
    word_at(a, last) == word_at(b, last)
}

/// Returns whether two byte strings of one length are equal, byte by byte.
#[inline(always)]
fn are_few_equal(a: &[u8], b: &[u8]) -> bool
    requires { length a.now ≡ length b.now }
    ensures { result ≡ pointwise nat_eq a.now b.now }
{
    let mut k = 0;
    while k < a.len() {
        if a[k] != b[k] {
            return false;
        }
        k += 1;
    }
    true
}

/// Returns eight bytes as a number, the first one the greatest.
pub(crate) fn word_at(bytes: &[u8], i: usize) -> u64
    requires { i + 8 ≤ length bytes.now }
    ensures value { result ≡ word 0 (take 8 (drop i bytes.now)) }
    ensures bytes { AreBytes bytes.now }
{
    // A piece of a fixed size is one load.
    let piece = bytes.split_at(i).1.split_at(WORD).0;
    u64::from_be_bytes([
        piece[0], piece[1], piece[2], piece[3], piece[4], piece[5], piece[6], piece[7],
    ])
}

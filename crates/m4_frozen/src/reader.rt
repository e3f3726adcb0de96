//! The version and directives, read at the start of bytes.
//!
//! Each step gets the bytes from its place on and returns those after it. Nothing is copied. A step
//! that more bytes could complete is refused like any other; `stays` distinguishes the two. Contracts
//! cite the reader's own steps, `specs/ReaderSteps.antt`.
//! Manual: "Frozen file format".

ghost use Rattle.std.specs.Prelude.{◌≡◌, ◌≤◌, ◌-◌, ◌∷◌, ℕ, List, length, drop, IfOk, IfSome, IfNone};
ghost use Rattle.std.specs.Option.{option_map};
ghost use Rattle.m4_frozen.specs.DirectiveView.{directive_of, IsJoined};
ghost use Rattle.m4_frozen.specs.ReaderSteps as steps;
ghost use Rattle.m4_frozen.specs.StepOutcome.{Gives};

use crate::directive::Directive;
use crate::fault::{FrozenKind, Refusal, refused_at};
use crate::number::{are_digits, version};
use crate::strings::{diversion, expect_byte, joined_pair, pair};

/// Returns whether a fault of this kind stays, whatever follows the bytes from its place on.
///
/// At the end of the bytes more bytes may remove it, and a version 0 may get more digits.
fn is_settled(kind: FrozenKind, here: &[u8]) -> bool
    ensures { result ≡ steps.is_settled kind here.now }
{
    match kind {
        FrozenKind::VersionZero => !are_digits(here),
        _ => !here.is_empty(),
    }
}

/// Returns whether a refusal stays, whatever follows these bytes, the last ones that were read.
pub(crate) fn stays(refusal: Refusal, bytes: &[u8]) -> bool
    requires { refusal.bytes_left ≤ length bytes.now }
    ensures { result ≡ steps.is_settled refusal.kind
        (drop (length bytes.now - refusal.bytes_left) bytes.now) }
{
    let here = bytes.split_at(bytes.len() - refusal.bytes_left).1;
    is_settled(refusal.kind, here)
}

/// Reads the line of the version; returns the bytes after it.
pub(crate) fn after_version(bytes: &[u8]) -> Result<&[u8], Refusal>
    ensures { Gives (λ x. x.now) result (steps.after_version bytes.now) }
{
    match bytes {
        [] => Err(refused_at(FrozenKind::NoVersion, bytes)),
        [b'V', rest @ ..] => expect_byte(b'\n', version(rest)?),
        [..] => Err(refused_at(FrozenKind::NoVersion, bytes)),
    }
}

/// Returns the bytes after a letter, if they begin with it.
pub(crate) fn line_after(letter: u8, bytes: &[u8]) -> Option<&[u8]>
    ensures some { IfSome result (λ line. bytes.now ≡ letter ∷ line.now) }
    ensures none { IfNone result ((line : List ℕ) → bytes.now ≡ letter ∷ line → ⊥) }
{
    match bytes {
        [first, line @ ..] if *first == letter => Some(line),
        _ => None,
    }
}

/// Reads the next directive, if there is one; returns it and the bytes after it.
#[tactic(auto, unfolding(crate::specs::ReaderSteps::directive_at))]
pub(crate) fn next_directive(bytes: &[u8]) -> Result<Option<(Directive<'_>, &[u8])>, Refusal>
    ensures gives { Gives (option_map (λ x. (directive_of x.0, x.1.now))) result
        (steps.next_at bytes.now) }
    ensures joined { IfOk result (λ next. IfSome next (λ x. IsJoined x.0)) }
{
    match bytes {
        [] => Ok(None),
        [b'Q', rest @ ..] => {
            let ((begin, end), rest) = pair(rest)?;
            Ok(Some((Directive::Quotes(begin, end), rest)))
        }
        [b'C', rest @ ..] => {
            let ((begin, end), rest) = pair(rest)?;
            Ok(Some((Directive::Comments(begin, end), rest)))
        }
        [b'T', rest @ ..] => {
            let ((both, middle), rest) = joined_pair(rest)?;
            Ok(Some((Directive::Text(both, middle), rest)))
        }
        [b'F', rest @ ..] => {
            let ((name, builtin), rest) = pair(rest)?;
            Ok(Some((Directive::Builtin(name, builtin), rest)))
        }
        [b'D', rest @ ..] => {
            let ((number, text), rest) = diversion(rest)?;
            Ok(Some((Directive::Diversion(number, text), rest)))
        }
        [b'V', ..] => Err(refused_at(FrozenKind::SecondVersion, bytes)),
        [..] => Err(refused_at(FrozenKind::UnknownDirective, bytes)),
    }
}

//! Definitions of names.

ghost use Rattle.std.specs.Prelude.{◌≡◌, IfOk, OnOk, OnErr, true, false};

use crate::builtin::Builtin;
use crate::bytes::Bytes;
use std::alloc::AllocError;

/// A definition.
#[derive(Drop)]
pub enum Def {
    /// A text, to which a call expands.
    Text(Bytes),
    /// A builtin of the table.
    Builtin(Builtin),
    /// The name of another program's builtin, from a frozen file.
    Placeholder(Bytes),
}

impl Def {
    ghost use Rattle.m4_state.specs.Definition.{length_of, IsSizedDefinition};

    /// Returns a copy, which shares a text that is shared already, and copies any other.
    #[inline(always)]
    pub fn share(&self) -> Result<Def, AllocError>
        ensures { IfOk result (λ d. d ≡ self.now) }
    {
        match self {
            Def::Text(text) => Ok(Def::Text(text.share()?)),
            Def::Builtin(builtin) => Ok(Def::Builtin(*builtin)),
            Def::Placeholder(name) => Ok(Def::Placeholder(name.share()?)),
        }
    }

    /// Makes this the same definition as another. Mostly both are short texts or both builtins, and nothing is dropped.
    #[inline(always)]
    pub fn set(&mut self, other: &Def) -> Result<(), AllocError>
        ensures ok { OnOk result (self.new ≡ other.now) }
        ensures err { OnErr result (self.new ≡ self.old) }
    {
        if self.set_in_place(other) {
            return Ok(());
        }
        self.set_any(other)
    }

    /// Makes this the same definition as another, if both are texts that are held in place, or both builtins. Returns
    /// whether they are.
    #[doc(hidden)]
    #[inline(always)]
    pub fn set_in_place(&mut self, other: &Def) -> bool
        ensures set { result ≡ true → self.new ≡ other.now }
        ensures left { result ≡ false → self.new ≡ self.old }
    {
        match (self, other) {
            (Def::Text(text), Def::Text(others)) => text.set_short(others),
            (Def::Builtin(builtin), Def::Builtin(others)) => {
                *builtin = *others;
                true
            }
            _ => false,
        }
    }

    /// Makes this the same definition as another. Not inlined, so that a call that is renewed is short.
    #[inline(never)]
    fn set_any(&mut self, other: &Def) -> Result<(), AllocError>
        ensures ok { OnOk result (self.new ≡ other.now) }
        ensures err { OnErr result (self.new ≡ self.old) }
    {
        if let Def::Text(text) = self
            && let Def::Text(others) = other
        {
            return text.set(others);
        }
        *self = other.share()?;
        Ok(())
    }

    /// Returns the length of the text, or of the builtin's name.
    pub fn len(&self) -> usize
        ensures len { result ≡ length_of self.now }
        ensures sized { IsSizedDefinition self.now }
    {
        match self {
            Def::Text(text) => text.as_slice().len(),
            Def::Builtin(builtin) => builtin.name().len(),
            Def::Placeholder(name) => name.as_slice().len(),
        }
    }
}

//! Devices: a reader or a writer that is passed as `&mut`.
//!
//! Contracts know the bytes of a device over memory, and promises about bytes are made for such devices.
//! They know no bytes of std's readers and writers. Every device counts its failures, so a contract can
//! state that a read fault is returned only if the reader failed.

ghost use Rattle.std.specs.Prelude.{◌≡◌, ◌<◌, ◌≤◌, ℕ, List, length, take, Option, OnErr, OnOk, IfOk, Ok};
ghost use Rattle.m4_state.specs.Device.{Script, after_bytes, IsAtEnd, IsAtFault, with_bytes, count_after};

/// A read or a write failed. No byte was read or written.
#[derive(Clone, Copy)]
pub struct DeviceFault;

/// Counts a failure of a device, and returns it.
#[doc(hidden)]
pub fn fail<T>(failures: &mut u64) -> Result<T, DeviceFault>
    ensures fault { OnOk result ⊥ }
    ensures counted { failures.new ≡ count_after result failures.old }
{
    *failures = failures.saturating_add(1);
    Err(DeviceFault)
}

/// A reader that is passed as `&mut`.
pub trait ByteSource {
    /// The bytes still to be read, and whether a failure follows them; none if these are not known.
    ghost script: { Self → Option Script };

    /// The number of takes that have failed.
    ghost failures: { Self → ℕ };

    /// A bound above the number of takes that still return bytes.
    ghost takes_left: { Self → ℕ };

    /// Writes the next bytes to the start of `buf`, and returns how many; 0 is the end.
    fn take(&mut self, buf: &mut [u8]) -> Result<usize, DeviceFault>
        requires { 0 < length buf.old }
        ensures within { IfOk result (λ n. n ≤ length buf.old) }
        ensures gives { IfOk result (λ n. script self.old ≡ after_bytes (take n buf.new) (script self.new)) }
        ensures end { result ≡ Ok 0 → IsAtEnd (script self.new) }
        ensures falls { IfOk result (λ n. 0 < n → takes_left self.new < takes_left self.old) }

        // a fault returns no byte
        ensures fault { OnErr result (IsAtFault (script self.old)) }
        ensures unchanged { OnErr result (script self.new ≡ script self.old) }
        ensures counted { failures self.new ≡ count_after result (failures self.old) };
}

/// A writer that is passed as `&mut`.
pub trait ByteSink {
    /// The bytes that were written; none if these are not known.
    ghost contents: { Self → Option (List ℕ) };

    /// The number of puts that have failed.
    ghost failures: { Self → ℕ };

    /// Writes a prefix of the bytes that is not empty, and returns its length.
    fn put(&mut self, bytes: &[u8]) -> Result<usize, DeviceFault>
        requires { 0 < length bytes.now }
        ensures within { IfOk result (λ n. n ≤ length bytes.now) }
        ensures some { IfOk result (λ n. 0 < n) }
        ensures takes { IfOk result (λ n. contents self.new ≡ with_bytes (contents self.old) (take n bytes.now)) }

        // a fault writes no byte
        ensures unchanged { OnErr result (contents self.new ≡ contents self.old) }
        ensures counted { failures self.new ≡ count_after result (failures self.old) };
}

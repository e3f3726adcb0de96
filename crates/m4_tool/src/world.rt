//! The world of a line: files that are opened by name, one that is made, standard input, and writers that
//! are flushed.
//!
//! [`StdWorld`](crate::std_world::StdWorld) is the world of a process, of which contracts know no byte.
//! [`MemWorld`](crate::mem_world::MemWorld) is a world in memory, of which they know all.

ghost use Rattle.std.specs.Prelude.{◌≡◌, ◌<◌, ◌≤◌, length, take, List, ℕ, Option, Some, [], OnOk, OnErr, IfOk};
ghost use Rattle.std.specs.Prelude.{IfSome, option_map, true, false, Bool};
ghost use Rattle.m4_state.specs.Device.{Script, count_after};
ghost use Rattle.m4_tool.specs.Unfinished.{HasMarked, LeavesMarked};
ghost use Rattle.m4_tool.specs.World.{Files, with_file, with_more};

use m4_state::device::{ByteSink, ByteSource, DeviceFault};

/// Files and standard input.
pub trait World: Drop {
    /// The reader of a file or of standard input.
    type Reader: ByteSource + Drop;

    /// The files that there are, with the whole text that was written; none if they are not known.
    ghost files: { Self → Option Files };

    /// The rest of standard input; none if it is not known.
    ghost input: { Self → Option Script };

    /// Whether a file was made. Until then the readers of files are known.
    ghost making: { Self → Bool };

    /// The files as another program finds them; none if they are not known. The one that was made is marked as
    /// unfinished by its first byte until it was finished.
    ghost kept: { Self → Option Files };

    /// How often making, writing or flushing the file has failed.
    ghost failures: { Self → ℕ };

    /// Opens a file for reading, unless that fails.
    fn open(&self, name: &[u8]) -> Option<Self::Reader>
        ensures { making self.now ≡ false → IfSome (files self.now)
            (λ fs. option_map Self.Reader.script result ≡ option_map Some (fs name.now)) };

    /// Returns the reader of standard input. It is read once: a second reader finds the end.
    fn stdin(&mut self) -> Self::Reader
        ensures script { IfSome (input self.old) (λ script. Self.Reader.script result ≡ Some script) }
        ensures ended { IfSome (input self.old) (λ script. input self.new
            ≡ Some (record { bytes = []; fails = false })) }
        ensures making { making self.new ≡ making self.old }
        ensures files { files self.new ≡ files self.old }
        ensures kept { kept self.new ≡ kept self.old }
        ensures failures { failures self.new ≡ failures self.old };

    /// Makes an empty file of this name, in place of an old one.
    fn create(&mut self, name: &[u8]) -> Result<(), DeviceFault>
        ensures emptied { OnOk result (files self.new ≡ option_map (with_file name.now []) (files self.old)) }
        ensures marked { OnOk result (HasMarked name.now (kept self.old) (kept self.new)) }
        ensures unchanged { OnErr result (files self.new ≡ files self.old) }
        ensures kept { OnErr result (kept self.new ≡ kept self.old) }
        ensures counted { failures self.new ≡ count_after result (failures self.old) };

    /// Writes a prefix of the bytes that is not empty to the end of the file that was made last, which
    /// has this name, and returns its length.
    fn append(&mut self, name: &[u8], bytes: &[u8]) -> Result<usize, DeviceFault>
        requires { 0 < length bytes.now }
        ensures within { IfOk result (λ n. n ≤ length bytes.now) }
        ensures some { IfOk result (λ n. 0 < n) }
        ensures appended { IfOk result (λ n. files self.new
            ≡ option_map (with_more name.now (take n bytes.now)) (files self.old)) }
        ensures marked { LeavesMarked name.now (kept self.old) (kept self.new) }
        ensures unchanged { OnErr result (files self.new ≡ files self.old) }
        ensures counted { failures self.new ≡ count_after result (failures self.old) };

    /// Flushes the file that was made, which has this name, if one was, and then puts its true first byte in place
    /// of the mark.
    fn finish(&mut self, name: &[u8]) -> Result<(), DeviceFault>
        ensures kept { OnOk result (kept self.new ≡ files self.new) }
        ensures marked { OnErr result (LeavesMarked name.now (kept self.old) (kept self.new)) }
        ensures files { files self.new ≡ files self.old }
        ensures counted { failures self.new ≡ count_after result (failures self.old) };
}

/// A writer that shows its bytes once it is flushed.
pub trait Shows: ByteSink {
    /// The bytes that are shown; none if they are not known.
    ghost shown: { Self → Option (List ℕ) };

    /// Shows the bytes that were written. A flush that fails counts as a failure.
    fn flush(&mut self) -> Result<(), DeviceFault>
        ensures shown { OnOk result (shown self.new ≡ Self.contents self.new) }
        ensures contents { Self.contents self.new ≡ Self.contents self.old }
        ensures failures { Self.failures self.new ≡ count_after result (Self.failures self.old) };
}

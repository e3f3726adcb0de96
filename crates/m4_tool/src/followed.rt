//! How a command line ends: the failure, if there was one, the line that reports it, and the status.

ghost use Rattle.std.specs.Prelude.{◌≡◌};
ghost use Rattle.m4_tool.specs.Failure.{failure_line, status_after};

use m4_engine::ending::Ending;

/// The status of a line whose work was not done.
pub(crate) const FAILED: u8 = 1;

/// Why a line was not followed to its defined end.
#[derive(Clone, Copy, Debug)]
pub enum Failure {
    /// A reader failed.
    Read,
    /// A write or a flush failed.
    Write,
    /// An allocation failed.
    OutOfMemory,
    /// An allocation failed while the frozen file was loaded. The line for that file reports it.
    Load,
    /// The line for a frozen file that was refused could not be written or flushed. Nothing else failed.
    Report,
}

impl Failure {
    /// Returns the line that reports it. It is empty if the line for a frozen file reports it, or if that line could
    /// not be written.
    pub(crate) fn line(self) -> &'static str
        ensures { result.now ≡ failure_line self }
    {
        match self {
            Failure::Read => "m4: read fault\n",
            Failure::Write => "m4: write fault\n",
            Failure::OutOfMemory => "m4: out of memory\n",
            Failure::Load | Failure::Report => "",
        }
    }
}

/// Returns the status of a line whose run has this status: `FAILED` if something failed.
pub(crate) fn status_after(failure: Option<Failure>, status: u8) -> u8
    ensures { result ≡ status_after failure status }
{
    match failure {
        Some(_) => FAILED,
        None => status,
    }
}

/// The end of a line, with the world after it.
#[derive(Drop)]
pub struct Followed<W> {
    /// The exit status.
    pub status: u8,
    /// How the run ended. Where there was no run, it has read everything, with the status of the line.
    pub ending: Ending,
    /// The failure, if there was one.
    pub failure: Option<Failure>,
    /// The world.
    pub world: W,
}

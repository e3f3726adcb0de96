//! The effect of a call: what the run still has to apply, apart from the state's change.

use m4_input::pushed::Pushed;
use m4_state::bytes::Bytes;

/// The effect of a call. Manual: "Macro invocation".
#[derive(Drop)]
pub struct Effect {
    /// The value that is inserted before the input: the expansion of the call.
    pub push: Option<Pushed>,
    /// The messages to be written.
    pub messages: Bytes,
    /// The output to be written at once, after the messages.
    pub output: Bytes,
    /// A text that is read after all input. Manual: "Saving text until end of input".
    pub wrap: Option<Bytes>,
    /// Whether the rest of the line is skipped. Manual: "Deleting whitespace in input".
    pub skip: bool,
    /// The code with which the run ends here. Manual: "Exiting from m4".
    pub exit: Option<u8>,
}

//! The delimiters of a state that has set its own.

use crate::given::pair;
use crate::report::joined;
use crate::shows::shows;
use m4_input::delims::Delims;
use m4_state::fault::StateFault;
use m4_state::state::State;
use std::alloc::{AllocError, Global};

// Returns a state with square brackets as quotes.
fn bracketed(alloc: Global) -> Result<State, StateFault> {
    let (begin, end) = pair(alloc, "[", "]")?;
    let mut state = State::empty(alloc)?;
    state.set_quotes(begin, end)?;
    Ok(state)
}

// Returns the delimiters of that state.
fn delims_of(alloc: Global) -> Result<Vec<u8>, AllocError> {
    match bracketed(alloc) {
        Ok(state) => {
            let delims = Delims::of(&state);
            let quotes = delims.quotes;
            let comments = delims.comments;
            joined(
                alloc,
                &[
                    quotes.begin.as_slice(),
                    quotes.end.as_slice(),
                    comments.begin.as_slice(),
                    comments.end.as_slice(),
                ],
            )
        }
        Err(StateFault::OutOfMemory) => Err(AllocError),
    }
}

#[test]
fn delimiters_of_a_state(rt: HostRuntime) {
    shows(&rt, "square brackets", b"[]#\n", delims_of(rt.alloc()));
}

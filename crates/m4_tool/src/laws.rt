//! Laws of the definitions: no code runs here.
//!
//! The contract of the function is a law of `specs/ThreeLines.antt`.

ghost use Rattle.m4_tool.specs.ThreeLines.{ThreeLines};

/// A call of [`follow`](crate::follow::follow) for a line that freezes, and then one for a line that reloads what it
/// froze, leave in the writers and in the files what one call over the files of both leaves, and end as it does. This
/// follows from the contract of `follow`. Manual: "Fast loading of frozen state".
pub fn three_lines()
    // split: for three calls of `follow`
    ensures { ThreeLines }
{}

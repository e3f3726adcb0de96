//! A file of a world in memory.

/// A file that a [`MemWorld`](crate::mem_world::MemWorld) has from the start.
#[derive(Clone, Copy)]
pub struct Given<'a> {
    /// Its name.
    pub name: &'a [u8],
    /// Its bytes.
    pub bytes: &'a [u8],
    /// Whether its reader fails after the bytes.
    pub fails: bool,
}

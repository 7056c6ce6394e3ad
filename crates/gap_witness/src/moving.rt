//! Moves of eighths.

/// Eighths that go from one asset to another.
#[derive(Clone, Copy)]
pub(crate) struct Move {
    pub(crate) from: u16,
    pub(crate) to: u16,
    pub(crate) eighths: u32,
}

//! What may go wrong in a call on the outside.

/// Why a call on the outside did nothing, or not all.
#[derive(Clone, Copy, PartialEq, Eq, Debug, Drop)]
pub enum Trouble {
    /// The outside failed: a count of faults rose in this call.
    Failed,
    /// Memory was refused. Nothing is tied to this answer, and contents are as before.
    OutOfMemory,
}

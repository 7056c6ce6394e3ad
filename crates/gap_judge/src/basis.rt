//! What the sections of a certificate stand on.

use gap_box::Part;
use gap_instance::Instance;
use gap_psd::Shift;

/// The instance, the shift and the root of a whole head.
#[derive(Drop)]
pub struct Basis {
    pub instance: Instance,
    pub shift: Shift,
    pub root: Part,
}

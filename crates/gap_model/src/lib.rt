//! What search and bounds share: leaves, alone and beside what they show, the trait of bounds with its laws, and the
//! definitions of the tangent bound: the Lagrangian, theta, and what a leaf shows by them.
#![tactic(auto)]

mod bound;
mod cert_fault;
mod front;
mod laws;
mod leaf;
mod outcome;
mod placed;
mod section_head;
mod shown;

pub use bound::NodeBound;
pub use cert_fault::{CertFault, CertKind};
pub use front::{FrontRow, efficient};
pub use laws::{
    lagrangian_bounds, leaf_sizes, priced_bound_is_lawful, ranges_are_decided, shown_order,
    sixty_fourth_is_least, tangent_bound_is_lawful, theta_is_least, theta_reads_assets,
};
pub use leaf::{Entry, Leaf};
pub use outcome::{Best, Outcome, Told};
pub use placed::{Placed, placed_at};
pub use section_head::SectionHead;
pub use shown::Shown;

//! The judge of a certificate's items: each is right by the items before it, or it is the first fault; and the place in its
//! tree that is read in order: the part of the next node, without a copy of it a node.
#![tactic(auto)]

mod basis;
mod built;
mod course;
mod ends;
mod fault;
mod fresh;
mod head;
mod items;
mod judge;
mod kept;
mod laws;
mod leaf;
mod level;
mod line;
mod shows;
mod stop;
mod verdict;
mod walk;

pub use judge::Judge;
pub use laws::walks_follow_trees;
pub use stop::CertStop;
pub use verdict::Verdict;
pub use walk::Walk;

//! The checker of certificates: it says yes exactly for the encodings of valid certificates, from the bytes alone, fed in
//! pieces of any size, and else names the first fault and its place; and the report of a certificate that was accepted.
#![tactic(auto)]

mod checker;
mod laws;
mod reading;
mod telling;

pub use checker::Checker;
pub use gap_judge::{CertStop, Verdict};
pub use laws::faults_are_alone;
pub use telling::verdict_report;

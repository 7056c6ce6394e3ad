//! The items of a certificate, read from bytes in any pieces, in either version.
#![tactic(auto)]

mod cursor;
mod groups;
mod laws;
mod scanner;

pub use laws::{pieces_dont_matter, scanning_goes_on, whole_certificates_are_scanned};
pub use scanner::Scanner;

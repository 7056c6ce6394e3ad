//! The form of the words after the program's name, and the lines of refusals.
#![tactic(auto)]

mod cert_line;
mod form;
mod job_line;
mod number;
mod port_line;
mod refusal;

pub use form::{DemoWords, Form, QuickWords, form_of};
pub use refusal::Refusal;

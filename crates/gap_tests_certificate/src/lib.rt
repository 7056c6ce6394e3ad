//! The tests of certificates: their parts, the reader, the walk, the checker, and the lines of a report. They call
//! what is public alone, and stand apart so that no layer is proved twice.
#![tactic(auto)]

#[cfg(test)]
mod check;
#[cfg(test)]
mod head;
#[cfg(test)]
mod report;
#[cfg(test)]
mod scan;
#[cfg(test)]
mod valid;
#[cfg(test)]
mod verify;
#[cfg(test)]
mod walk;
pub mod worked;

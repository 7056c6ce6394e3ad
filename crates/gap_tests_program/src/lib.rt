//! The tests of files, words and the public call, `upgrade` among its commands. They call
//! what is public alone, and stand apart so that no layer is proved twice.
#![tactic(auto)]

#[cfg(test)]
mod files;
pub mod outside;
#[cfg(test)]
mod top;
#[cfg(test)]
mod trace;
#[cfg(test)]
mod words;

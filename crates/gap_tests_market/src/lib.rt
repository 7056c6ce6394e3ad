//! The tests of what a market, a job and the sums over them stand on. They call
//! what is public alone, and stand apart so that no layer is proved twice.
#![tactic(auto)]

#[cfg(test)]
mod demo;
#[cfg(test)]
mod factor;
#[cfg(test)]
mod instance;
#[cfg(test)]
mod job;
#[cfg(test)]
mod lines;
#[cfg(test)]
mod numerals;
#[cfg(test)]
mod objective;
#[cfg(test)]
mod orlib;
#[cfg(test)]
mod parts;
#[cfg(test)]
mod psd;
pub mod roofs;
#[cfg(test)]
mod values;

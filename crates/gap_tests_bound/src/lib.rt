//! The tests of the bound, of the points that it is taken at, and of starts, and tables by listing. They call
//! what is public alone, and stand apart so that no layer is proved twice.
#![tactic(auto)]

#[cfg(test)]
mod choices;
pub mod drawing;
#[cfg(test)]
mod multipliers;
#[cfg(test)]
mod prices;
#[cfg(test)]
mod start;
#[cfg(test)]
mod tables;
#[cfg(test)]
mod tangent;
#[cfg(test)]
mod witness;

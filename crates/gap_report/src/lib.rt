//! The lines of a report: the market, what is known of each weight, the lots of a portfolio, and the frontier.
#![tactic(auto)]

mod front;
mod laws;
mod lots;
mod market;
mod weight;

pub use front::front_line;
pub use laws::texts_tell_outcomes;
pub use lots::lots_line;
pub use market::market_line;
pub use weight::{verdict_line, weight_line};

//! The tangent bound of the objective under a weight: theta of a part, exactly, and the bound of a search that it makes.
//!
//! The Lagrangian of an instance at a point is a constant and a cost for each asset. What the point alone gives is a
//! `Tangent`, made once and kept while multipliers vary; a theta under further multipliers costs one pass over the
//! assets and the choice of the K cheapest differences. Nothing here takes memory.
#![tactic(auto)]

mod bends;
mod constants;
mod curves;
mod entries;
mod gradients;
mod lagrangian;
mod lines;
mod lists;
mod lots;
mod making;
mod mean_variance;
mod moves;
mod node_bound;
mod point;
mod priced;
mod rows;
mod shows;
mod slopes;
mod tangent;
mod terms;
mod thetas;

pub use curves::{AlphaCurve, TauCurve};
pub use entries::point_from;
pub use gap_base::{Eighths, Witness};
pub use mean_variance::MeanVariance;
pub use point::Point;
pub use tangent::Tangent;
pub use terms::TangentTerms;
pub use thetas::{theta, void_theta};

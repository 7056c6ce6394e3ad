//! What a valid certificate is, what it shows, and what it proves of every list of lots; which head of a certificate says an
//! instance, a shift and a budget, and a market said anew so; which certificates have an encoding, and that each has one of
//! version 2.
#![tactic(auto)]

mod encoding_laws;
mod head_laws;
mod laws;
mod said;

pub use encoding_laws::{
    certificates_are_alone, encodings_are_alone, encodings_exist, valid_certificates_are_writable,
};
pub use head_laws::{
    heads_say_each_asset, heads_say_instances, said_instances_are_the_same,
    said_markets_make_said_instances,
};
pub use laws::{
    entries_stand_in_order, heads_are_read, least_shown_is_least, leaves_show_as_bounds,
    parts_are_covered, valid_certificates_bound,
};
pub use said::said_anew;

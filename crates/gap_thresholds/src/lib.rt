//! Classes of gap times and of ratios of gap times. Within a class a wheel's limits on speed and on the ratio of two
//! speeds decide alike; the cuts part the classes.
#![tactic(auto)]

mod ascending;
mod cut;
mod cuts;
mod divisor;
mod gaps;
mod laws;

pub use cuts::Cuts;
pub use laws::cuts_are_their_wheels;

//! Over a sound image the walk of the table is the mathematics of motions.
//!
//! The walk's letters are those of the wheel, its states hold the places where motions end, and its report has the verdicts that
//! motions give. `specs/Laws` says each law.
#![tactic(auto)]

mod laws;

pub use laws::{
    classes_are_the_wheels, compiled_images_are_sound, kinds_say_ends, letters_are_the_wheels,
    long_gaps_keep_no_limit, report_is_right, starts_are_small, state_zero_is_lost,
    states_hold_ends,
};

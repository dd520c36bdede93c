//! Why a run ends, what is said of it on notes, and the status with which it ends.
#![tactic(auto)]

mod cause;
mod ending;
mod filing;
mod lines;
mod refused;
mod status;
mod writing;

pub use cause::{Cause, Done, Limit, Refusal};
pub use ending::{finish, hand_on};
pub use filing::{create_file, make_file, put_piece};
pub use lines::{Line, note};
pub use refused::{NoTable, NoWheel, NotSound};
pub use status::Status;
pub use writing::put;

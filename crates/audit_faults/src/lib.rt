//! What an audit of a compiled wheel's image can tell: the first difference between the image and its own wheel's table.
//!
//! `image_audit` looks for it; whoever tells a user of it needs the fault alone.
#![tactic(auto)]

mod fault;

pub use fault::AuditFault;

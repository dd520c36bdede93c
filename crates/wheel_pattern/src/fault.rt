//! Why bytes are refused.

use crate::Key;
use thiserror::Error;
use wheel_types::WheelFault;

/// Why bytes are no wheel file: the first of these that is so, in this order.
#[derive(Clone, Copy, Debug, PartialEq, Eq, Error)]
pub enum PatternFault {
    /// The bytes are no TOML document.
    #[error("wheel: not toml")]
    NotToml,
    /// A key at the top is none of a wheel file.
    #[error("wheel: unknown key")]
    UnknownKey,
    /// `slots` stands beside a key of a tooth pattern.
    #[error("wheel: both forms")]
    BothForms,
    /// A required key is not there.
    #[error("wheel: missing key {key}")]
    MissingKey { key: Key },
    /// A value is not of its key's kind or range.
    #[error("wheel: bad value {key}")]
    BadValue { key: Key },
    /// The parts are not those of a wheel.
    #[error("{0}")]
    Wheel(WheelFault),
    /// Memory ran out.
    #[error("want of memory")]
    Memory,
}

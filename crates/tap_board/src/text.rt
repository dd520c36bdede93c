//! Short texts, which are made without taking memory.
ghost use Rattle.std.specs.Prelude.{◌≡◌, ◌≤◌, ◌+◌, ◌++◌, OnOk, OnErr, decimal};
ghost use Rattle.arrayvec.specs.ArrayString.{array_string_len};

use arrayvec::ArrayString;
use itoa::Buffer;
use wheel_types::Memory;

/// A text of at most 96 bytes.
pub type Text = ArrayString<96>;

/// Puts a number at the end of a text.
pub fn push_number(text: &mut Text, number: u64)
    requires { array_string_len text.old + 20 ≤ 96 }
    ensures bytes { text.new.bytes ≡ text.old.bytes ++ decimal number }
    ensures room { array_string_len text.new ≤ array_string_len text.old + 20 }
{
    let mut buffer = Buffer::new();
    text.push_str(buffer.format(number));
}

/// Puts a text behind bytes, whole or not at all.
///
/// # Errors
///
/// `Memory`; the bytes are as they were then.
pub fn append(out: &mut Vec<u8>, text: &Text) -> Result<(), Memory>
    ensures ok { OnOk result (out.new.items ≡ out.old.items ++ text.now.bytes) }
    ensures err { OnErr result (out.new.items ≡ out.old.items) }
{
    match out.extend_from_slice(text.as_str().as_bytes()) {
        Ok(()) => Ok(()),
        Err(_) => Err(Memory),
    }
}

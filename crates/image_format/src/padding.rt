ghost use Rattle.std.specs.Prelude.{◌≡◌, ◌≤◌, length};
ghost use Rattle.image_layout.specs.ListRules.{is_padding};

/// The bytes between the places are zero.
pub fn is_padding(bytes: &[u8], from: usize, to: usize) -> bool
    requires order { from ≤ to }
    requires within { to ≤ length bytes.now }
    ensures { result ≡ is_padding bytes.now from to }
{
    bytes[from..to].iter().all(|byte| *byte == 0)
}

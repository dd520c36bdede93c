//! Bytes and texts of tokens, by kind.
ghost use Rattle.std.specs.Prelude.{◌≡◌};
ghost use Rattle.std.specs.List.{list_all};
ghost use Rattle.vcd_header.specs.Texts as texts;
ghost use Rattle.vcd_header.specs.Values as values;

use wheel_types::List;

pub fn is_code_byte(b: u8) -> bool
    ensures { result ≡ texts.is_code_byte b }
{
    b'!' <= b && b <= b'~'
}

pub fn is_value(b: u8) -> bool
    ensures { result ≡ values.is_value b }
{
    b == b'0'
        || b == b'1'
        || b == b'x'
        || b == b'X'
        || b == b'z'
        || b == b'Z'
        || b == b'u'
        || b == b'U'
        || b == b'w'
        || b == b'W'
        || b == b'l'
        || b == b'L'
        || b == b'h'
        || b == b'H'
        || b == b'-'
}

pub fn level_of(b: u8) -> Option<bool>
    ensures { result ≡ values.level_of b }
{
    match b {
        b'0' => Some(false),
        b'1' => Some(true),
        _ => None,
    }
}

pub fn all_code_bytes(text: &[u8]) -> bool
    ensures { result ≡ list_all texts.is_code_byte text.now }
{
    text.iter().all(|b| is_code_byte(*b))
}

pub fn all_values(text: &[u8]) -> bool
    ensures { result ≡ list_all values.is_value text.now }
{
    text.iter().all(|b| is_value(*b))
}

/// The code is that of a watched channel.
pub fn is_code(mine: &Option<List<u8>>, code: &[u8]) -> bool
    ensures { result ≡ values.is_code mine.now code.now }
{
    match mine {
        Some(mine) => mine.as_slice() == code,
        None => false,
    }
}

/// The keyword has no effect among the changes.
pub fn is_idle(text: &[u8]) -> bool
    ensures { result ≡ values.is_idle text.now }
{
    text == b"$dumpvars".as_slice()
        || text == b"$dumpall".as_slice()
        || text == b"$dumpon".as_slice()
        || text == b"$dumpoff".as_slice()
        || text == b"$end".as_slice()
}

/// The keyword that ends a section.
pub fn is_end(text: &[u8]) -> bool
    ensures { result ≡ texts.is_end text.now }
{
    text == b"$end".as_slice()
}

/// It begins with a dollar sign.
pub fn is_keyword(text: &[u8]) -> bool
    ensures { result ≡ texts.is_keyword text.now }
{
    match text {
        [first, ..] => *first == b'$',
        [] => false,
    }
}

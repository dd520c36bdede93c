//! Tokens, and the white space between them.
ghost use Rattle.std.specs.Prelude.{◌≡◌, OnOk, OnErr};
ghost use Rattle.vcd_reader.specs.White;

use std::alloc::{AllocError, Global};
use wheel_types::List;

/// Bytes without white space, and the number of bytes before them.
#[derive(Debug, Drop)]
pub struct Token {
    pub text: List<u8>,
    pub at: u64,
}

pub fn is_white(b: u8) -> bool
    ensures { result ≡ White.is_white b }
{
    b == b' ' || b == b'\t' || b == b'\n' || b == b'\r'
}

impl Token {
    ghost use Rattle.vcd_reader.specs.Tokens.{none_at, with_byte};

    /// A token at the front that has not begun.
    pub fn new(alloc: Global) -> Token
        ensures { result ≡ none_at 0 }
    {
        Token {
            text: List::from_vec(Vec::new(alloc)),
            at: 0,
        }
    }

    /// One more byte of the token.
    pub fn push(&mut self, b: u8) -> Result<(), AllocError>
        ensures ok { OnOk result (self.new ≡ with_byte self.old b) }
        ensures err { OnErr result (self.new ≡ self.old) }
    {
        self.text.items.push(b)?;
        Ok(())
    }

    /// The next token has not begun, and would stand here.
    pub fn restart(&mut self, at: u64)
        ensures { self.new ≡ none_at at }
    {
        self.text.items.clear();
        self.at = at;
    }
}

//! Lines of bytes, each of which ends with LF.

ghost use Rattle.std.specs.Prelude.{◌≡◌, ◌++◌, ◌∷◌, None, IfSome};
ghost use Rattle.wl_codec.specs.Lines.{HasNoLf};

use memchr::memchr;

/// The byte that ends a line.
pub const LF: u8 = 10;

/// The bytes of a line at most, without its LF, and of a message.
pub const LONGEST_LINE: usize = 65_536;

/// The first line and what follows its LF, if there is an LF.
pub fn split_line(bytes: &[u8]) -> Option<(&[u8], &[u8])>
    ensures none { result ≡ None → HasNoLf bytes.now }
    ensures some { IfSome result (λ parts. HasNoLf parts.0.now × (bytes.now ≡ parts.0.now ++ 10 ∷ parts.1.now)) }
{
    let at = memchr(LF, bytes)?;
    Some((&bytes[..at], &bytes[at + 1..]))
}

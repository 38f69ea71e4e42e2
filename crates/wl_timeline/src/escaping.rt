//! Texts of a script, as they may stand in an SVG.

ghost use Rattle.std.specs.Prelude.{◌≡◌, IfOk, option_map, string_bytes, unwrap_or};
ghost use Rattle.std.specs.Char.{encode_utf8};
ghost use Rattle.wl_timeline.specs.Escapes.{escape_text, escaped_char, is_unprintable};

use std::alloc::Global;
use wl_types::Memory;

/// Whether a character can't be printed: it is a control character, or one that XML has no place for.
fn is_unprintable(c: char) -> bool
    ensures { result ≡ is_unprintable c }
{
    c < ' ' || (c > '~' && c < '\u{a0}') || c == '\u{fffe}' || c == '\u{ffff}'
}

/// What stands for a character that may not stand as it is.
fn stand_in(c: char) -> Option<&'static str>
    ensures { unwrap_or (option_map (λ s. s.now) result) (encode_utf8 c) ≡ escaped_char c }
{
    if c == '<' {
        Some("&lt;")
    } else if c == '>' {
        Some("&gt;")
    } else if c == '&' {
        Some("&amp;")
    } else if c == '"' {
        Some("&quot;")
    } else if c == '\'' {
        Some("&#39;")
    } else if is_unprintable(c) {
        Some("\u{fffd}")
    } else {
        None
    }
}

/// The text, as it may stand between tags and in an attribute.
pub(crate) fn escape(alloc: Global, text: &str) -> Result<String, Memory>
    ensures { IfOk result (λ safe. string_bytes safe ≡ escape_text text.now) }
{
    let mut safe = String::new(alloc);
    for c in text.chars() {
        match stand_in(c) {
            Some(other) => safe.push_str(other)?,
            None => safe.push(c)?,
        }
    }
    Ok(safe)
}

/// The front of a text, and an ellipsis where it has more than so many characters; escaped.
pub(crate) fn escape_front(alloc: Global, text: &str, most: usize) -> Result<String, Memory> {
    let mut front = String::new(alloc);
    for (n, c) in text.chars().enumerate() {
        if n >= most {
            front.push('\u{2026}')?;
            break;
        }
        front.push(c)?;
    }
    escape(alloc, front.as_str())
}

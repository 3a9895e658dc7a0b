//! The lines of bytes that are all there.
ghost use Rattle.std.specs.Prelude.{◌≡◌, ◌<◌, [], ◌∷◌, IfNone, IfSome, length};
ghost use Rattle.lines.specs.Lines.{lines_of};

use crate::buffer::find_feed;

/// The first line without its line feed, and the bytes behind it.
pub fn first_line(bytes: &[u8]) -> Option<(&[u8], &[u8])>
    ensures none { IfNone result (bytes.now ≡ []) }
    ensures lines { IfSome result (λ r. lines_of bytes.now ≡ r.0.now ∷ lines_of r.1.now) }
    ensures shorter { IfSome result (λ r. length r.1.now < length bytes.now) }
{
    if bytes.is_empty() {
        return None;
    }
    match find_feed(bytes) {
        Some(feed) => Some((&bytes[..feed], &bytes[feed + 1..])),
        None => Some(bytes.split_at(bytes.len())),
    }
}

/// How many lines there are.
pub fn count_lines(bytes: &[u8]) -> usize
    ensures lines { result ≡ length (lines_of bytes.now) }
{
    let mut rest = bytes;
    let mut count = 0;
    'counting: while let Some((_, behind)) = first_line(rest) {
        rest = behind;
        count += 1;
    }
    count
}

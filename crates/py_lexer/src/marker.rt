ghost use Rattle.std.specs.Prelude.{◌≡◌, ◌↔◌, ◌≤◌, ◌==◌, ℕ, IsTrue, List, Option, length};
ghost use Rattle.std.specs.List.{before_first, list_all, list_any, position};
ghost use Rattle.py_lexer.specs.Lines.{lines, without_byte_order_mark};
ghost use Rattle.py_lexer.specs.Marker.{first_marker, IsFirstMarker, is_marker_line, IsMarkerLine, part_of, after_spaces, is_name_and_spaces, is_space, marker_names};

use crate::lines::{Lines, first_place};

/// U+FEFF in UTF-8.
const BYTE_ORDER_MARK: &[u8] = b"\xef\xbb\xbf";

/// The names that a marker imports.
const MARKER_NAMES: [&[u8]; 2] = [b"__strict__", b"__static__"];

/// The physical line, from 1, of the first marker in a text.
pub fn marker_line(text: &[u8]) -> Option<u32>
    requires { length text.now ≤ 1048576 }
    ensures exact { result ≡ first_marker text.now }
    ensures first { IsFirstMarker text.now result }
{
    let place = first_marker_place(without_byte_order_mark(text))?;
    Some(place as u32 + 1)
}

/// A text has one first marker.
pub fn one_answer()
    ensures { (text : List ℕ) (one other : Option ℕ) → IsFirstMarker text one → IsFirstMarker text other → one ≡ other }
{}

/// A line is a marker line by the test exactly where it is spelled as one.
pub fn one_spelling()
    ensures { (line : List ℕ) → IsTrue (is_marker_line line) ↔ IsMarkerLine line }
{}

/// The text without U+FEFF at its start.
fn without_byte_order_mark(text: &[u8]) -> &[u8]
    ensures { result.now ≡ without_byte_order_mark text.now }
{
    text.strip_prefix(BYTE_ORDER_MARK).unwrap_or(text)
}

/// How many lines stand before the first marker.
fn first_marker_place(text: &[u8]) -> Option<usize>
    ensures { result ≡ position is_marker_line (lines text.now) }
{
    Lines::new(text).position(is_marker)
}

/// Whether a line is `import`, spaces and a marker's name, up to its comment, its carriage return and its last spaces.
fn is_marker(line: &[u8]) -> bool
    ensures { result ≡ is_marker_line line.now }
{
    match part(line).strip_prefix(b"import ") {
        Some(imported) => is_marker_name(after_spaces(imported)),
        None => false,
    }
}

/// The part of a line that counts: up to its first `#`, and then without one carriage return at its end.
fn part(line: &[u8]) -> &[u8]
    ensures { result.now ≡ part_of line.now }
{
    match before_comment(line) {
        [before @ .., b'\r'] => before,
        part => part,
    }
}

/// What stands before the first `#`.
fn before_comment(line: &[u8]) -> &[u8]
    ensures { result.now ≡ before_first (λ byte. byte == 35) line.now }
{
    match first_place(line, b'#') {
        Some(end) => &line[..end],
        None => line,
    }
}

/// What follows the spaces at the front.
fn after_spaces(bytes: &[u8]) -> &[u8]
    ensures { result.now ≡ after_spaces bytes.now }
{
    let spaces = bytes.iter().take_while(|byte| **byte == b' ').count();
    &bytes[spaces..]
}

/// Whether the bytes are a marker's name, with spaces behind it.
fn is_marker_name(bytes: &[u8]) -> bool
    ensures { result ≡ list_any (is_name_and_spaces bytes.now) marker_names }
{
    MARKER_NAMES
        .iter()
        .any(|name| is_name_and_spaces(bytes, name))
}

/// Whether the bytes are the name, with spaces behind it.
fn is_name_and_spaces(bytes: &[u8], name: &[u8]) -> bool
    ensures { result ≡ is_name_and_spaces bytes.now name.now }
{
    match bytes.strip_prefix(name) {
        Some(rest) => are_spaces(rest),
        None => false,
    }
}

/// Whether each byte is a space.
fn are_spaces(bytes: &[u8]) -> bool
    ensures { result ≡ list_all is_space bytes.now }
{
    bytes.iter().all(|byte| *byte == b' ')
}

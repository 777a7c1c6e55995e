ghost use Rattle.std.specs.Prelude.{◌≡◌};
ghost use Rattle.key_map.specs.Keys as spec;
ghost use Rattle.key_map.specs.Keys.{key_of, keys_of, same};

use crate::key::Key;

/// Whether both are the same key. Takes no memory, and a stack as deep as the key.
#[cycle(are_same)]
pub fn are_same(a: &Key, b: &Key) -> bool
    ensures { result ≡ same (key_of a.now) (key_of b.now) }
{
    match a {
        Key::Nil => matches!(b, Key::Nil),
        Key::Int(a) => matches!(b, Key::Int(b) if a == b),
        Key::Str(a) => matches!(b, Key::Str(b) if a.as_slice() == b.as_slice()),
        Key::Tuple(a) => match b {
            Key::Tuple(b) => all_same(a.as_slice(), b.as_slice()),
            _ => false,
        },
    }
}

#[cycle(are_same)]
fn all_same(a: &[Key], b: &[Key]) -> bool
    ensures { result ≡ spec.all_same (keys_of a.now) (keys_of b.now) }
{
    if a.len() != b.len() {
        return false;
    }
    for (place, item) in a.iter().enumerate() {
        if !are_same(item, &b[place]) {
            return false;
        }
    }
    true
}

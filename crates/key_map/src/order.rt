ghost use Rattle.std.specs.Prelude.{◌≡◌};
ghost use Rattle.key_map.specs.Keys.{key_of, keys_of};
ghost use Rattle.key_map.specs.Order.{order, order_of_items};

use crate::key::Key;
use std::cmp::Ordering;

/// The order of two keys. Takes no memory, and a stack as deep as the keys.
#[cycle(compare)]
pub fn compare(a: &Key, b: &Key) -> Ordering
    ensures { result ≡ order (key_of a.now) (key_of b.now) }
{
    match a {
        Key::Nil => match b {
            Key::Nil => Ordering::Equal,
            _ => Ordering::Less,
        },
        Key::Int(a) => match b {
            Key::Nil => Ordering::Greater,
            Key::Int(b) => a.cmp(b),
            _ => Ordering::Less,
        },
        Key::Str(a) => match b {
            Key::Nil | Key::Int(_) => Ordering::Greater,
            Key::Str(b) => a.as_slice().cmp(b.as_slice()),
            Key::Tuple(_) => Ordering::Less,
        },
        Key::Tuple(a) => match b {
            Key::Tuple(b) => compare_items(a.as_slice(), b.as_slice()),
            _ => Ordering::Greater,
        },
    }
}

#[cycle(compare)]
fn compare_items(a: &[Key], b: &[Key]) -> Ordering
    ensures { result ≡ order_of_items (keys_of a.now) (keys_of b.now) }
{
    for (place, item) in a.iter().enumerate() {
        if b.len() <= place {
            return Ordering::Greater;
        }
        let order = compare(item, &b[place]);
        if order != Ordering::Equal {
            return order;
        }
    }
    if a.len() == b.len() {
        Ordering::Equal
    } else {
        Ordering::Less
    }
}

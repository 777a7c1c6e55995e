ghost use Rattle.std.specs.Prelude.{◌≡◌, fold};
ghost use Rattle.key_map.specs.Keys.{key_of, keys_of};
ghost use Rattle.key_map.specs.Hashed.{all_writes, writes};

use crate::key::Key;
use std::hash::{Hash, Hasher};

/// Hands a key to a hasher. Takes no memory, and a stack as deep as the key.
#[cycle(feed)]
pub fn feed<H: Hasher>(key: &Key, state: &mut H)
    ensures { state.new ≡ fold H.write state.old (writes (key_of key.now)) }
{
    match key {
        Key::Nil => state.write_u8(0),
        Key::Int(number) => number.hash(state),
        Key::Str(text) => text.as_slice().hash(state),
        Key::Tuple(items) => {
            state.write_usize(items.len());
            feed_all(items.as_slice(), state);
        }
    }
}

#[cycle(feed)]
fn feed_all<H: Hasher>(keys: &[Key], state: &mut H)
    ensures { state.new ≡ fold H.write state.old (all_writes (keys_of keys.now)) }
{
    for key in keys {
        feed(key, state);
    }
}

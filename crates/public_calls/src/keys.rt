use key_map::key::{Key, KeyText, Keys};
use key_map::map::KeyMap;
use std::alloc::{AllocError, Global};
use std::test::Fail;

fn text(alloc: Global, points: &[char]) -> Result<Key, AllocError> {
    Ok(Key::Str(KeyText::from_slice(alloc, points)?))
}

fn pair(alloc: Global, first: Key, second: Key) -> Result<Key, AllocError> {
    let mut items = Keys::new(alloc);
    items.push(first)?;
    items.push(second)?;
    Ok(Key::Tuple(items))
}

#[test]
fn an_equal_key_keeps_its_first_form_and_its_place(rt: HostRuntime) -> Result<(), Fail> {
    let mut map = KeyMap::new(rt.alloc());
    map.put(Key::Int(1), "1", 'a')?;
    map.put(Key::Int(2), "2", 'c')?;
    map.put(Key::Int(1), "True", 'b')?;
    assert_eq!(rt; map.len(), 2);
    assert_eq!(rt; map.at(0), Some((&"1", &'b')));
    assert_eq!(rt; map.at(1), Some((&"2", &'c')));
    assert_eq!(rt; map.at(2), None);
    Ok(())
}

#[test]
fn keys_of_each_kind_are_apart(rt: HostRuntime) -> Result<(), Fail> {
    let alloc = rt.alloc();
    let key = text(alloc, &['0'])?;
    let same = text(alloc, &['0'])?;
    let mut map = KeyMap::new(alloc);
    map.put(Key::Nil, 0, 0)?;
    map.put(Key::Int(0), 1, 1)?;
    map.put(key, 2, 2)?;
    map.put(Key::Tuple(Keys::new(alloc)), 3, 3)?;
    assert_eq!(rt; map.len(), 4);
    assert_eq!(rt; map.find(&Key::Nil), Some(&0));
    assert_eq!(rt; map.find(&same), Some(&2));
    assert_eq!(rt; map.find(&Key::Int(1)), None);
    Ok(())
}

#[test]
fn an_empty_text_is_no_empty_tuple(rt: HostRuntime) -> Result<(), Fail> {
    let alloc = rt.alloc();
    let key = text(alloc, &[])?;
    let empty = Key::Tuple(Keys::new(alloc));
    let mut map = KeyMap::new(alloc);
    map.put(key, 0, 0)?;
    assert_eq!(rt; map.find(&empty), None);
    map.put(Key::Tuple(Keys::new(alloc)), 1, 1)?;
    assert_eq!(rt; map.find(&empty), Some(&1));
    Ok(())
}

#[test]
fn a_tuple_is_found_by_its_items_in_their_order(rt: HostRuntime) -> Result<(), Fail> {
    let alloc = rt.alloc();
    let key = pair(alloc, Key::Int(0), Key::Nil)?;
    let same = pair(alloc, Key::Int(0), Key::Nil)?;
    let turned = pair(alloc, Key::Nil, Key::Int(0))?;
    let mut map = KeyMap::new(alloc);
    map.put(key, 0, 0)?;
    assert_eq!(rt; map.find(&same), Some(&0));
    assert_eq!(rt; map.find(&turned), None);
    map.put(turned, 1, 1)?;
    assert_eq!(rt; map.len(), 2);
    Ok(())
}

#[test]
fn keys_are_copied_and_ordered(rt: HostRuntime) -> Result<(), Fail> {
    let mut map = KeyMap::new(rt.alloc());
    map.put(Key::Int(1), 'a', 'b')?;
    assert!(rt; map.key_at(0).is_some_and(|key| *key == Key::Int(1)));
    assert!(rt; map.key_at(1).is_none());
    assert!(rt; Key::Int(1).copy(rt.alloc())? == Key::Int(1));
    assert!(rt; Key::Nil < Key::Int(-1));
    assert!(rt; Key::Int(2) < Key::Int(3));
    Ok(())
}

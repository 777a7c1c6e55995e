use lists::{ElementAt, Items};
use std::test::Fail;

#[test]
fn elements_stand_where_they_were_pushed(rt: HostRuntime) -> Result<(), Fail> {
    let mut names = Items::new(rt.alloc());
    names.push('a')?;
    names.push('b')?;
    assert_eq!(rt; names.len(), 2);
    assert_eq!(rt; *names.at(0), 'a');
    assert_eq!(rt; *names.at(1), 'b');
    Ok(())
}

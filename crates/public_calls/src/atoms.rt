use atom_ops::builtin::{character, magnitude, place_in};
use atom_ops::search::{Pattern, contains};
use atom_ops::text::compare_text;
use py_tree::text::Text;
use py_values::exception::ExcKind;
use std::cmp::Ordering;
use std::test::Fail;

#[test]
fn texts_are_ordered_by_code_points(rt: HostRuntime) -> Result<(), Fail> {
    let alloc = rt.alloc();
    for (a, b, order) in [
        ("", "", Ordering::Equal),
        ("", "a", Ordering::Less),
        ("ab", "a", Ordering::Greater),
        ("ab", "b", Ordering::Less),
        ("\u{ff5e}", "\u{1f600}", Ordering::Less),
    ] {
        let (first, second) = (Text::from_str(alloc, a)?, Text::from_str(alloc, b)?);
        assert_eq!(rt;
            compare_text(first.as_slice(), second.as_slice()),
            order,
            "{a} and {b}"
        );
    }
    Ok(())
}

#[test]
fn a_part_is_found_at_its_next_place(rt: HostRuntime) -> Result<(), Fail> {
    let alloc = rt.alloc();
    let pattern = Pattern::new(alloc, &['a', 'b'])?;
    assert_eq!(rt; pattern.find(&['a', 'a', 'b', 'a', 'b'], 2), Some(3));
    assert_eq!(rt; pattern.find(&['a', 'a', 'b'], 2), None);
    assert!(rt; contains(alloc, &['b', 'a'], &['a', 'b', 'a'])?);
    assert!(rt; !contains(alloc, &['b', 'b'], &['a', 'b', 'a'])?);
    Ok(())
}

#[test]
fn builtins_answer_at_their_ends(rt: HostRuntime) {
    assert_eq!(rt; place_in(3, -1), Some(2));
    assert_eq!(rt; place_in(3, 3), None);
    assert_eq!(rt; character(0xd800), None);
    assert_eq!(rt; character(97), Some('a'));
    assert_eq!(rt; magnitude(i64::MIN), Err(ExcKind::OverflowError));
    assert_eq!(rt; magnitude(-2), Ok(2));
}

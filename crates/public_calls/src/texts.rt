use atom_ops::atom::Atom;
use atom_ops::builtin::{begins, code_of, ends, joined, length_as_int, text_of};
use atom_ops::read_int::read_int;
use atom_ops::text::repr_text;
use py_values::exception::ExcKind;
use std::test::Fail;

#[test]
fn texts_are_joined_and_told_by_their_ends(rt: HostRuntime) -> Result<(), Fail> {
    let text = joined(rt.alloc(), &['a', 'b'], &['c'])?;
    assert!(rt; text.as_slice() == ['a', 'b', 'c'].as_slice());
    assert!(rt; begins(&['a', 'b'], &['a']) && !begins(&['a', 'b'], &['b']));
    assert!(rt; ends(&['a', 'b'], &['b']) && !ends(&['a', 'b'], &['a']));
    Ok(())
}

#[test]
fn a_text_is_measured(rt: HostRuntime) {
    assert_eq!(rt; code_of(&['a']), Some(97));
    assert_eq!(rt; code_of(&['a', 'b']), None);
    assert_eq!(rt; length_as_int(3), Ok(3));
    assert_eq!(rt; read_int(&[' ', '-', '1', '2']), Ok(-12));
    assert_eq!(rt; read_int(&['x']), Err(ExcKind::ValueError));
}

#[test]
fn atoms_are_written_as_repr_writes_them(rt: HostRuntime) -> Result<(), Fail> {
    let number = text_of(rt.alloc(), Atom::Int(-12))?;
    assert!(rt; number.is_some_and(|text| text.as_slice() == ['-', '1', '2'].as_slice()));
    assert!(rt; text_of(rt.alloc(), Atom::Opaque)?.is_none());
    let text = repr_text(rt.alloc(), &['\'', '\n'])?;
    assert!(rt; text.as_slice() == ['"', '\'', '\\', 'n', '"'].as_slice());
    Ok(())
}

use py_values::builtin::{Builtin, builtin_named, dict_method};
use py_values::exception::ExcKind;
use py_values::kind::{ValueKind, kind};
use py_values::value::{Home, Ref, Value};
use std::test::Fail;

#[test]
fn index_errors_are_lookup_errors(rt: HostRuntime) -> Result<(), Fail> {
    assert_eq!(rt; ExcKind::IndexError.base(), Some(ExcKind::LookupError));
    assert_eq!(rt; ExcKind::LookupError.name(), "LookupError");
    assert!(rt; ExcKind::KeyError.is_below(ExcKind::Exception));
    assert!(rt; !ExcKind::KeyError.is_below(ExcKind::ArithmeticError));
    assert_eq!(rt; ExcKind::KeyError.above().len(), 3);
    Ok(())
}

#[test]
fn objects_are_told_apart_by_their_places_alone(rt: HostRuntime) -> Result<(), Fail> {
    let place = Ref {
        home: Home::Module(3),
        place: 7,
    };
    assert_eq!(rt; kind(Value::Obj(place)), ValueKind::Object);
    assert_eq!(rt; kind(Value::Str(place)), ValueKind::Str);
    assert_eq!(rt; kind(Value::Bool(true)), ValueKind::Bool);
    Ok(())
}

#[test]
fn builtins_have_names(rt: HostRuntime) {
    assert_eq!(rt; builtin_named(&['l', 'e', 'n']), Some(Builtin::Len));
    assert_eq!(rt; dict_method(&['c', 'o', 'p', 'y']), Some(Builtin::DictCopy));
    assert_eq!(rt; Builtin::Len.name(), "len");
}

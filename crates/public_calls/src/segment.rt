ghost use Rattle.heap_seg.specs.declared.rules.Answer.TheVariants as answer;
ghost use Rattle.py_tree.specs.declared.code.Code.TheVariants as code;

use heap_seg::object::{Change, Object, Values};
use heap_seg::rules::{Answer, Rules};
use heap_seg::segment::Segment;
use key_map::key::Key;
use py_tree::code::Code;
use py_tree::expression::Texts;
use py_tree::text::Text;
use py_values::class_id::ClassId;
use py_values::exception::ExcKind;
use py_values::value::{Home, Ref, Value};
use std::test::Fail;

const HOME: Home = Home::Module(2);

#[test]
fn a_list_and_a_tuple_hold_their_items(rt: HostRuntime) -> Result<(), Fail> {
    let mut segment = Segment::new(rt.alloc(), HOME);
    segment.make_list(&[Value::Int(1), Value::Nil])?;
    segment.make_tuple(&[Value::Int(2)])?;
    assert!(rt; items(segment.get(0)) == [Value::Int(1), Value::Nil].as_slice());
    assert!(rt;
        matches!(segment.get(1), Object::Tuple(items) if items.as_slice() == [Value::Int(2)].as_slice())
    );
    Ok(())
}

#[test]
fn a_text_holds_its_code_points_and_a_new_dict_nothing(rt: HostRuntime) -> Result<(), Fail> {
    let mut segment = Segment::new(rt.alloc(), HOME);
    segment.make_text(&['a', 'b'])?;
    segment.make_dict()?;
    assert!(rt;
        matches!(segment.get(0), Object::Text(text) if text.as_slice() == ['a', 'b'].as_slice())
    );
    assert!(rt; matches!(segment.get(1), Object::Dict(entries) if entries.len() == 0));
    Ok(())
}

#[test]
fn a_range_holds_its_three_ints(rt: HostRuntime) -> Result<(), Fail> {
    let mut segment = Segment::new(rt.alloc(), HOME);
    segment.make_range(0, 3, -1)?;
    assert!(rt;
        matches!(
            segment.get(0),
            Object::Range {
                start: 0,
                stop: 3,
                step: -1
            }
        )
    );
    Ok(())
}

#[test]
fn a_bound_method_holds_its_receiver(rt: HostRuntime) -> Result<(), Fail> {
    let mut segment = Segment::new(rt.alloc(), HOME);
    segment.make_bound(Value::Nil, Value::Bool(true))?;
    assert!(rt;
        matches!(
            segment.get(0),
            Object::Bound {
                receiver: Value::Nil,
                method: Value::Bool(true)
            }
        )
    );
    Ok(())
}

#[test]
fn an_instance_holds_its_class_and_its_slots(rt: HostRuntime) -> Result<(), Fail> {
    let mut segment = Segment::new(rt.alloc(), HOME);
    segment.make_instance(ClassId::Exc(ExcKind::KeyError), &[None])?;
    assert!(rt;
        matches!(segment.get(0), Object::Instance { class: ClassId::Exc(ExcKind::KeyError), slots } if slots.as_slice() == [None].as_slice())
    );
    Ok(())
}

#[test]
fn a_made_object_is_told_by_its_home_and_place(rt: HostRuntime) -> Result<(), Fail> {
    let mut segment = Segment::new(rt.alloc(), HOME);
    segment.make_dict()?;
    let made = segment.make_dict()?;
    let place = Ref {
        home: HOME,
        place: 1,
    };
    assert_eq!(rt; made, place);
    assert_eq!(rt; segment.home(), HOME);
    assert_eq!(rt; segment.len(), 2);
    Ok(())
}

/// The items of a list, or nothing where another object stands there.
fn items(object: &Object) -> &[Value] {
    match object {
        Object::List(items) => items.as_slice(),
        _ => &[],
    }
}

#[test]
fn a_write_changes_the_object_at_its_place(rt: HostRuntime) -> Result<(), Fail> {
    let mut segment = Segment::new(rt.alloc(), HOME);
    segment.make_list(&[Value::Int(1)])?;
    segment.make_list(&[Value::Int(2)])?;
    segment.write(1, Change::Push(Value::Int(3)))?;
    assert!(rt; items(segment.get(0)) == [Value::Int(1)].as_slice());
    assert!(rt; items(segment.get(1)) == [Value::Int(2), Value::Int(3)].as_slice());
    Ok(())
}

#[test]
fn a_key_is_put(rt: HostRuntime) -> Result<(), Fail> {
    let mut segment = Segment::new(rt.alloc(), HOME);
    segment.make_dict()?;
    segment.write(0, Change::Put(Key::Int(1), Value::Bool(true), Value::Nil))?;
    match segment.get(0) {
        Object::Dict(entries) => {
            assert_eq!(rt; entries.len(), 1);
            assert_eq!(rt; entries.at(0), Some((&Value::Bool(true), &Value::Nil)));
            assert_eq!(rt; entries.find(&Key::Int(1)), Some(&Value::Nil));
        }
        _ => assert!(rt; false),
    }
    Ok(())
}

#[test]
fn a_slot_is_set(rt: HostRuntime) -> Result<(), Fail> {
    let mut segment = Segment::new(rt.alloc(), HOME);
    segment.make_instance(ClassId::User { home: 2, number: 0 }, &[None, None])?;
    segment.write(0, Change::SetSlot(1, Value::Int(5)))?;
    match segment.get(0) {
        Object::Instance { slots, .. } => {
            assert!(rt; slots.as_slice() == [None, Some(Value::Int(5))].as_slice());
        }
        _ => assert!(rt; false),
    }
    Ok(())
}

#[test]
fn globals_are_taken_out(rt: HostRuntime) -> Result<(), Fail> {
    let alloc = rt.alloc();
    let mut segment = Segment::new(alloc, Home::Run);
    let mut names = Texts::new(alloc);
    names.push(Text::from_str(alloc, "x")?)?;
    names.push(Text::from_str(alloc, "y")?)?;
    segment.open_globals(&names)?;
    segment.set_global(1, Value::Int(7));
    let globals = segment.take_globals();
    assert_eq!(rt; globals.len(), 2);
    assert_eq!(rt; globals.at(0).value, None);
    assert_eq!(rt; globals.at(1).value, Some(Value::Int(7)));
    assert!(rt; globals.at(1).name.same(&Text::from_str(alloc, "y")?));
    assert_eq!(rt; segment.take_globals().len(), 0);
    Ok(())
}

#[test]
fn a_global_is_bound_and_unbound(rt: HostRuntime) -> Result<(), Fail> {
    let alloc = rt.alloc();
    let mut segment = Segment::new(alloc, Home::Run);
    let mut names = Texts::new(alloc);
    names.push(Text::from_str(alloc, "x")?)?;
    segment.open_globals(&names)?;
    assert_eq!(rt; segment.global(0), None);
    segment.set_global(0, Value::Int(7));
    assert_eq!(rt; segment.global(0), Some(Value::Int(7)));
    segment.unset_global(0);
    assert_eq!(rt; segment.global(0), None);
    Ok(())
}

#[test]
fn a_default_value_is_set_again(rt: HostRuntime) -> Result<(), Fail> {
    let mut segment = Segment::new(rt.alloc(), Home::Run);
    segment.set_default(3, 0, Value::Int(8))?;
    segment.set_default(3, 0, Value::Int(9))?;
    assert_eq!(rt; segment.default_value(3, 0), Some(Value::Int(9)));
    assert_eq!(rt; segment.default_value(0, 3), None);
    assert!(rt; segment.default_at(0).is_some());
    assert!(rt; segment.default_at(1).is_none());
    Ok(())
}

#[test]
fn lists_and_texts_are_taken_over(rt: HostRuntime) -> Result<(), Fail> {
    let alloc = rt.alloc();
    let mut segment = Segment::new(alloc, HOME);
    segment.make_list_of(Values::from_slice(alloc, &[Value::Int(1)])?)?;
    segment.make_text_of(Text::from_str(alloc, "a")?)?;
    assert!(rt; items(segment.get(0)) == [Value::Int(1)].as_slice());
    assert!(rt; matches!(segment.get(1), Object::Text(text) if text.len() == 1));
    Ok(())
}

/// Prints are refused, and the rest is done.
struct Silent;

impl Rules for Silent {
    ghost mode = { λ rules. record { on_write = λ home. answer.Go; on_print = answer.Refuse code.Effect; on_look = answer.Go } };

    fn on_write(&self, _home: Home) -> Answer {
        Answer::Go
    }

    fn on_print(&self) -> Answer {
        Answer::Refuse(Code::Effect)
    }

    fn on_look(&self) -> Answer {
        Answer::Go
    }
}

fn answers<R: Rules>(rules: &R) -> [Answer; 3] {
    [rules.on_write(Home::Run), rules.on_print(), rules.on_look()]
}

#[test]
fn rules_answer_by_their_mode(rt: HostRuntime) -> Result<(), Fail> {
    let wanted = [Answer::Go, Answer::Refuse(Code::Effect), Answer::Go];
    assert_eq!(rt; answers(&Silent), wanted);
    Ok(())
}

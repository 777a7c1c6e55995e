use py_lexer::lines::Lines;
use py_lexer::names::{is_identifier, is_keyword};
use std::test::Fail;

#[test]
fn ends_each_line_at_its_line_feed(rt: HostRuntime) {
    let mut lines = Lines::new(b"a\r\n\nb");
    assert_eq!(rt; lines.next(), Some(b"a\r".as_slice()));
    assert_eq!(rt; lines.next(), Some(b"".as_slice()));
    assert_eq!(rt; lines.next(), Some(b"b".as_slice()));
    assert_eq!(rt; lines.next(), None);
}

#[test]
fn has_no_line_behind_the_last_line_feed(rt: HostRuntime) {
    for (text, count) in [("", 0), ("\n", 1), ("a", 1), ("a\n", 1), ("a\n\n", 2)] {
        assert_eq!(rt; Lines::new(text.as_bytes()).count(), count, "in {text}");
    }
}

#[test]
fn takes_identifiers_in_their_composed_form(rt: HostRuntime) -> Result<(), Fail> {
    let cases = [
        ("name_1", true),
        ("_", true),
        ("\u{e9}", true),
        ("e\u{301}", false),
        ("\u{fb01}", false),
        ("1a", false),
        ("a-b", false),
        ("", false),
    ];
    for (name, is_one) in cases {
        assert_eq!(rt; is_identifier(rt.alloc(), name)?, is_one, "at {name}");
    }
    Ok(())
}

#[test]
fn knows_keywords_from_other_names(rt: HostRuntime) {
    for (name, is_one) in [
        ("False", true),
        ("yield", true),
        ("false", false),
        ("match", false),
        ("", false),
    ] {
        assert_eq!(rt; is_keyword(name.as_bytes()), is_one, "at {name}");
    }
}

ghost use Rattle.py_tree.specs.Joined.{expression_of, maybe_of};
ghost use Rattle.symbols.specs.Classes as spec;
ghost use Rattle.symbols.specs.Classes.{expression_base, member_base, named_base, object_or_bad};
ghost use Rattle.symbols.specs.ClassViews.{IsBase, Tabled, found_at};

use crate::class::BasePlace;
use crate::class_table::ClassTable;
use crate::words::{exception_of, is_word};
use py_tree::expression::Expr;
use py_tree::text::Text;

/// Where the base of a class is that stands behind these.
pub(crate) fn base_of(earlier: &ClassTable<'_>, base: &Option<Expr>) -> BasePlace
    ensures { IsBase earlier.now (spec.base_of earlier.now.outer (found_at earlier.now) (maybe_of base.now)) result }
{
    match base {
        Some(e) => expression_base(earlier, e),
        None => BasePlace::None,
    }
}

fn expression_base(earlier: &ClassTable<'_>, e: &Expr) -> BasePlace
    ensures { IsBase earlier.now (expression_base earlier.now.outer (found_at earlier.now) (expression_of e.now)) result }
{
    match e {
        Expr::Name(name) => named_base(earlier, name),
        Expr::Attr(from, name) => member_base(earlier, from.get(), name),
        _ => BasePlace::Bad,
    }
}

/// A class that stands earlier, an imported class, an exception class or `object`.
fn named_base(earlier: &ClassTable<'_>, name: &Text) -> BasePlace
    ensures { IsBase earlier.now (named_base earlier.now.outer (found_at earlier.now) name.now) result }
{
    match earlier.number(name) {
        Some(number) => BasePlace::Earlier(number),
        None => match earlier.imported().class_number(name) {
            Some(number) => BasePlace::Imported(number),
            None => own_base(name),
        },
    }
}

/// An exception class, or `object`.
fn own_base(name: &Text) -> BasePlace
    ensures { (table : Tabled) → IsBase table (spec.own_base name.now) result }
{
    match exception_of(name) {
        Some(kind) => BasePlace::Exception(kind),
        None => object_or_bad(name),
    }
}

fn object_or_bad(name: &Text) -> BasePlace
    ensures { (table : Tabled) → IsBase table (object_or_bad name.now) result }
{
    if is_word(name, b"object") {
        BasePlace::None
    } else {
        BasePlace::Bad
    }
}

/// A class of an imported module.
fn member_base(earlier: &ClassTable<'_>, from: &Expr, name: &Text) -> BasePlace
    ensures { IsBase earlier.now (member_base earlier.now.outer (expression_of from.now) name.now) result }
{
    match from {
        Expr::Name(from) => module_base(earlier, from, name),
        _ => BasePlace::Bad,
    }
}

fn module_base(earlier: &ClassTable<'_>, from: &Text, name: &Text) -> BasePlace
    ensures { IsBase earlier.now (spec.module_base earlier.now.outer from.now name.now) result }
{
    match earlier.imported().member_number(from, name) {
        Some(number) => BasePlace::Imported(number),
        None => BasePlace::Bad,
    }
}

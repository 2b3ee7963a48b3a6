//! What has no expression in it.

ghost use Rattle.std.specs.Prelude.{◌≡◌, ◌↔◌, IsTrue};

use py_ast::{BinaryOperator, Comparator, Constant, NameAt, UnaryOperator, WholeNumber};
use py_literals::place::Pos;

/// Whether two places are one.
pub fn same_place(a: Pos, b: Pos) -> bool
    ensures { IsTrue result ↔ (a ≡ b) }
{
    a.line == b.line && a.col == b.col
}

/// Whether two whole numbers are one.
pub fn same_number(a: &WholeNumber, b: &WholeNumber) -> bool
    ensures { IsTrue result ↔ (a.now ≡ b.now) }
{
    a.get() == b.get()
}

/// Whether two constants are one.
pub fn same_constant(a: Constant, b: Constant) -> bool
    ensures { IsTrue result ↔ (a ≡ b) }
{
    a == b
}

/// Whether two unary operators are one.
pub fn same_unary_operator(a: UnaryOperator, b: UnaryOperator) -> bool
    ensures { IsTrue result ↔ (a ≡ b) }
{
    a == b
}

/// Whether two binary operators are one.
pub fn same_binary_operator(a: BinaryOperator, b: BinaryOperator) -> bool
    ensures { IsTrue result ↔ (a ≡ b) }
{
    a == b
}

/// Whether two comparisons are one.
pub fn same_comparator(a: Comparator, b: Comparator) -> bool
    ensures { IsTrue result ↔ (a ≡ b) }
{
    a == b
}

/// Whether two names are the same, and stand at one place.
pub fn same_name_at(a: &NameAt, b: &NameAt) -> bool
    ensures { IsTrue result ↔ (a.now ≡ b.now) }
{
    same_place(a.at, b.at) && a.name == b.name
}

/// Whether there is a name in both, the same at one place, or in neither.
pub fn same_optional_name(a: &Option<NameAt>, b: &Option<NameAt>) -> bool
    ensures { IsTrue result ↔ (a.now ≡ b.now) }
{
    match (a, b) {
        (None, None) => true,
        (Some(one), Some(other)) => same_name_at(one, other),
        _ => false,
    }
}

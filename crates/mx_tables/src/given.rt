//! The parameters of a statement.
ghost use Rattle.std.specs.Prelude.{◌≡◌, ◌<◌, ◌^◌};
ghost use Rattle.sqlite_value.specs.Value.{owned};
ghost use Rattle.sqlite_value.specs.declared.value.Value.TheVariants.{Text};
ghost use Rattle.mx_cells.specs.Cells.{number as cell};

use sqlite_value::value::ValueRef;

/// The most that a column of numbers keeps, 2^63 - 1.
pub const MOST_KEPT: u64 = 9_223_372_036_854_775_807;

/// A text.
pub fn text(text: &str) -> ValueRef<'_>
    ensures { owned result ≡ Text text.now }
{
    ValueRef::Text(text.as_bytes())
}

/// A number that a column keeps.
pub fn number(number: u64) -> ValueRef<'static>
    requires { number < 2 ^ 63 }
    ensures { owned result ≡ cell number }
{
    ValueRef::Int(number as i64)
}

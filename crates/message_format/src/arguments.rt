//! The arguments of a message.

ghost use Rattle.std.specs.Prelude.{◌≡◌};
ghost use Rattle.message_format.specs.FormatArguments.{named_values_view, value_named};
ghost use Rattle.message_format.specs.Inner.FormatViews.{any_value};

/// What an argument is.
#[derive(Clone, Copy, Debug)]
pub enum Value<'a> {
    /// A number, as it is written: a decimal, with a sign and a compact exponent or none.
    Number(&'a str),
    /// A text.
    Text(&'a str),
}

/// A value under a name.
#[derive(Clone, Copy, Debug)]
pub struct Argument<'a> {
    /// The name, or the digits of its number.
    pub name: &'a str,
    /// What it is.
    pub value: Value<'a>,
}

/// The arguments of a message.
pub trait Arguments {
    ghost use Rattle.std.specs.Prelude.{List};
    ghost use Rattle.message_format.specs.FormatArguments.{Argument};

    ghost arguments: { Self → List Argument };

    /// Returns the value of the first argument that has the name.
    fn value<'s>(&'s self, name: &[u8]) -> Option<Value<'s>>
        ensures { any_value result ≡ value_named name.now (arguments self.now) };
}

impl<'l, 'a> Arguments for &'l [Argument<'a>] {
    ghost arguments = { λ list. named_values_view list.now };

    #[inline(always)]
    fn value<'s>(&'s self, name: &[u8]) -> Option<Value<'s>> {
        value_named(name, *self)
    }
}

// The value of the first argument that has the name.
fn value_named<'a>(name: &[u8], arguments: &[Argument<'a>]) -> Option<Value<'a>>
    ensures { any_value result ≡ value_named name.now (named_values_view arguments.now) }
{
    let mut left = arguments;
    while let [first, rest @ ..] = left {
        if first.name.as_bytes() == name {
            return Some(first.value);
        }
        left = rest;
    }
    None
}

//! Why bytes are refused as rules, and rules as too long.

use packed_list::ListError;
use plural_runtime::RuleBytesError;
use std::alloc::AllocError;
use std::error::Error;
use std::fmt;

/// Why bytes aren't rules of a language: they aren't a packed list, or the first bad item has the
/// first of the other three faults.
#[derive(Clone, Copy, Debug, PartialEq, Eq)]
pub enum RulesBytesError {
    /// They aren't a packed list.
    List(ListError),
    /// The item at this place has no byte.
    ItemEmpty(usize),
    /// The key of the item at this place is above 4, or not above the key of the item before it.
    Key(usize),
    /// What follows the key of the item at this place isn't a rule.
    Rule(usize, RuleBytesError),
}

impl fmt::Display for RulesBytesError {
    ghost use Rattle.std.specs.Prelude.{Some};
    ghost use Rattle.plural_base.specs.PluralBaseErrors.{rules_bytes_error_text};

    ghost output = { λ error. Some (rules_bytes_error_text error) };

    fn fmt<W: fmt::Write>(&self, f: &mut fmt::Formatter<W>) -> fmt::Result {
        match self {
            RulesBytesError::List(fault) => fault.fmt(f),
            RulesBytesError::ItemEmpty(place) => write!(f, "rule {place} without a byte"),
            RulesBytesError::Key(place) => write!(f, "bad key of rule {place}"),
            RulesBytesError::Rule(place, fault) => write!(f, "rule {place}: {fault}"),
        }
    }
}

impl Error for RulesBytesError {}

/// Why the rules of a language can't be packed.
#[derive(Clone, Copy, Debug, PartialEq, Eq)]
pub enum RulesPackError {
    /// A rule would start after place 65535 of the data.
    StartLimit,
    /// Out of memory.
    Memory,
}

impl fmt::Display for RulesPackError {
    ghost use Rattle.std.specs.Prelude.{Some};
    ghost use Rattle.plural_base.specs.PluralBaseErrors.{rules_pack_error_text};

    ghost output = { λ error. Some (rules_pack_error_text error) };

    fn fmt<W: fmt::Write>(&self, f: &mut fmt::Formatter<W>) -> fmt::Result {
        f.write_str(match self {
            RulesPackError::StartLimit => "rules too long",
            RulesPackError::Memory => "out of memory",
        })
    }
}

impl Error for RulesPackError {}

impl From<AllocError> for RulesPackError {
    ghost use Rattle.std.specs.Prelude.{◌≡◌};
    ghost use Rattle.plural_base.specs.declared.rules.bytes.error.RulesPackError.TheVariants.{Memory};

    ghost from_gives = { λ _ error. error ≡ Memory };

    fn from(_error: AllocError) -> RulesPackError {
        RulesPackError::Memory
    }
}

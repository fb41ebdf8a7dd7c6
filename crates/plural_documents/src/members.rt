//! What is found in the members of an object, one after the other.

ghost use Rattle.std.specs.Prelude.{OnOk};
ghost use Rattle.plural_documents.specs.Steps.{HasGrownBy, IsFoundInMembers};
ghost use Rattle.serde_json.specs.View.{members_view};

use serde_json::{Map, Value};
use std::alloc::{AllocError, Global};

/// What is found, one after the other.
pub trait Findings {
    ghost use Rattle.std.specs.Prelude.{◌≡◌};

    // No finding, and no count.
    ghost nothing: { Self };

    // Both, in this order.
    ghost together: { Self → Self → Self };

    /// Returns no finding, and no count. It allocates nothing.
    fn nothing(alloc: Global) -> Self
        ensures { result ≡ nothing };

    ghost ends: { (found : Self) → together found nothing ≡ found };

    ghost joins: { (a b c : Self) → together (together a b) c ≡ together a (together b c) };
}

/// A check of the members of an object.
pub trait MemberCheck<'a, F: Findings> {
    ghost use Rattle.std.specs.Prelude.{List, ℕ, OnOk};
    ghost use Rattle.plural_documents.specs.Steps.{HasGrownBy};
    ghost use Rattle.serde_json.specs.Data.{Data};
    ghost use Rattle.serde_json.specs.View.{view};

    // What is found in a member.
    ghost finds: { Self → List ℕ → Data → F → Type 0 };

    /// Adds what is found in a member. It allocates; the only error is out of memory.
    fn add(
        &self,
        alloc: Global,
        key: &'a str,
        value: &'a Value,
        found: &mut F,
    ) -> Result<(), AllocError>
        ensures { OnOk result (HasGrownBy F.together (finds self.now key.now (view value.now)) found.old found.new) };
}

/// Adds what is found in each member, in the order of the keys' bytes. It allocates; the only error
/// is out of memory.
pub fn add_members<'a, F: Findings, C: MemberCheck<'a, F>>(
    alloc: Global,
    check: &C,
    members: &'a Map<String, Value>,
    found: &mut F,
) -> Result<(), AllocError>
    ensures { OnOk result (HasGrownBy F.together
        (IsFoundInMembers F.nothing F.together (C.finds check.now) (members_view members.now.entries)) found.old found.new) }
{
    for (key, value) in members.iter() {
        check.add(alloc, key.as_str(), value, found)?;
    }
    Ok(())
}

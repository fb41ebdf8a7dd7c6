//! Texts that are joined.

ghost use Rattle.std.specs.Prelude.{◌≡◌, List, ℕ, ◌∷◌, [], IfOk, OnOk, codes, string_bytes};
ghost use Rattle.form_commands.specs.CExpressions.{and_text, or_text};
ghost use Rattle.form_commands.specs.Inner.ConditionSteps.{AreJoined, Joins};

use std::alloc::{AllocError, Global};

// Texts with a separator between them.
#[derive(Drop)]
pub(crate) struct Joined {
    text: String,
    is_begun: bool,
}

impl Joined {
    // No text.
    pub(crate) fn new(alloc: Global) -> Joined
        ensures { (separator : List ℕ) → AreJoined separator [] result }
    {
        Joined {
            text: String::new(alloc),
            is_begun: false,
        }
    }

    // Appends a text, after the separator if one is before it.
    pub(crate) fn push(&mut self, separator: &str, text: &str) -> Result<(), AllocError>
        ensures { OnOk result (Joins separator.now (text.now ∷ []) self.old self.new) }
    {
        if self.is_begun {
            self.text.push_str(separator)?;
        }
        self.text.push_str(text)?;
        self.is_begun = true;
        Ok(())
    }

    // The texts, which `&&` joins, or 1 without any.
    pub(crate) fn and_text(&self) -> &str
        ensures { (pieces : List (List ℕ)) → AreJoined (codes " && ") pieces self.now → result.now ≡ and_text pieces }
    {
        if self.is_begun {
            self.text.as_str()
        } else {
            "1"
        }
    }

    // The texts, which `||` joins, or 0 without any.
    pub(crate) fn or_text(&self) -> &str
        ensures { (pieces : List (List ℕ)) → AreJoined (codes " || ") pieces self.now → result.now ≡ or_text pieces }
    {
        if self.is_begun {
            self.text.as_str()
        } else {
            "0"
        }
    }
}

//! The printed text of a rule.

ghost use Rattle.std.specs.Prelude.{◌≡◌, IfOk};
ghost use Rattle.icu_plurals.specs.Serializer.{rule_text};

use icu_plurals::provider::rules::reference::ast::Rule;
use icu_plurals::provider::rules::reference::serialize;
use std::alloc::{AllocError, Global};
use std::fmt;
use std::marker::Model;

/// The text that a rule prints. Contracts see its bytes.
#[derive(Debug, Drop)]
pub struct PrintedRule(pub String);

impl Model for PrintedRule {
    ghost use Rattle.std.specs.Prelude.{List, ℕ, string_bytes};

    ghost Value = { List ℕ };

    ghost view = { λ printed. string_bytes printed.0 };
}

impl PrintedRule {
    /// Returns the text of a rule (UTS 35 Part 3, Plural Rules Syntax and Samples). It allocates;
    /// the only error is out of memory.
    pub fn of(alloc: Global, rule: &Rule) -> Result<PrintedRule, AllocError>
        ensures { IfOk result (λ printed. printed ≡ rule_text rule.now) }
    {
        let mut text = String::new(alloc);
        match serialize(rule, &mut text) {
            Ok(()) => Ok(PrintedRule(text)),
            Err(_) => Err(AllocError),
        }
    }
}

impl fmt::Display for PrintedRule {
    ghost use Rattle.std.specs.Prelude.{Some};

    ghost output = { λ printed. Some printed };

    fn fmt<W: fmt::Write>(&self, f: &mut fmt::Formatter<W>) -> fmt::Result {
        f.write_str(self.0.as_str())
    }
}

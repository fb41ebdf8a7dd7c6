//! What was found in the texts of languages a short while ago.

ghost use Rattle.std.specs.Prelude.{◌≡◌, ◌≢◌, ◌-◌, ◌∷◌, ◌++◌, [], All, Contains, IfNone, IfSome, OnErr, OnOk, drop, length, map};
ghost use Rattle.plural_checker.specs.LanguageTexts.{six_texts};
ghost use Rattle.document_report.specs.Inner.CheckCalls.{texts_found};

use plural_checker::LanguageTexts;
use std::alloc::{AllocError, Global};
use std::collections::VecDeque;
use std::marker::Model;

// How many languages are kept. CLDR 48 has 39 sets of texts for cardinal numbers and 24 for ordinal
// ones.
const MOST: usize = 64;

/// What may be found in the texts of a language.
pub trait FoundInTexts: Copy {
    ghost use Rattle.plural_checker.specs.LanguageTexts.{SixTexts};

    // It is found in these.
    ghost IsFoundIn: { Self → SixTexts → Type 0 };
}

// The texts of a language, and what is found in them.
#[derive(Clone, Copy, Debug)]
struct Language<'a, F> {
    texts: LanguageTexts<'a>,
    found: F,
}

/// What is found in the texts of languages, of the 64 that were looked at last: in a document many
/// locales have the same texts. Contracts see a list of the texts and what is found in them, the
/// oldest first.
#[derive(Debug, Drop)]
pub struct KnownTexts<'a, F: FoundInTexts> {
    languages: VecDeque<Language<'a, F>>,
}

impl<'a, F: FoundInTexts> Model for KnownTexts<'a, F> {
    ghost use Rattle.std.specs.Prelude.{◌≤◌, List, All, length, map};
    ghost use Rattle.plural_checker.specs.LanguageTexts.{SixTexts};
    ghost use Rattle.document_report.specs.Inner.CheckCalls.{texts_found};

    ghost Value = { List (SixTexts × F) };

    ghost view = { λ known. map texts_found known.languages.items };

    ghost invariant = { λ known. All (λ language. F.IsFoundIn language.1 language.0) (map texts_found known.languages.items)
        × (length known.languages.items ≤ 64) };
}

impl<'a, F: FoundInTexts> KnownTexts<'a, F> {
    /// Returns no texts. It allocates nothing.
    pub fn new(alloc: Global) -> KnownTexts<'a, F>
        ensures { result ≡ [] }
    {
        KnownTexts {
            languages: VecDeque::new(alloc),
        }
    }

    /// Returns what is found in texts, if the same are kept. It allocates nothing.
    pub fn found_in(&self, texts: &LanguageTexts<'_>) -> Option<F>
        ensures found { IfSome result (λ found. F.IsFoundIn found (six_texts texts.now)) }
        ensures kept { IfSome result (λ found. Contains self.now (six_texts texts.now, found)) }
        ensures none { IfNone result (All (λ language. language.0 ≢ six_texts texts.now) self.now) }
    {
        let (older, later) = self.languages.as_slices();
        match found_among(later, texts) {
            Some(found) => Some(found),
            None => found_among(older, texts),
        }
    }

    /// Keeps what is found in texts, in place of the oldest ones if there are 64. It allocates; the
    /// only error is out of memory.
    pub fn keep(&mut self, texts: LanguageTexts<'a>, found: F) -> Result<(), AllocError>
        requires { F.IsFoundIn found (six_texts texts) }
        // The last 64 of those before and these.
        ensures ok { OnOk result (self.new ≡ drop (length self.old - 63) (self.old ++ (six_texts texts.entry, found) ∷ [])) }
        ensures err { OnErr result (self.new ≡ self.old) }
    {
        self.languages.push_back(Language { texts, found })?;
        if self.languages.len() > MOST {
            drop(self.languages.pop_front());
        }
        Ok(())
    }
}

// What is found in texts, if the same are among these.
fn found_among<F: FoundInTexts>(
    languages: &[Language<'_, F>],
    texts: &LanguageTexts<'_>,
) -> Option<F>
    ensures kept { IfSome result (λ found. Contains (map texts_found languages.now) (six_texts texts.now, found)) }
    ensures none { IfNone result (All (λ language. six_texts language.texts ≢ six_texts texts.now) languages.now) }
{
    for language in languages {
        if language.texts == *texts {
            return Some(language.found);
        }
    }
    None
}

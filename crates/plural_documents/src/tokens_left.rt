//! The tokens of a text that are left.

ghost use Rattle.std.specs.Prelude.{◌≡◌, ◌+◌, ◌^◌, ◌<◌, ◌≤◌, ◌∷◌, length, map};
ghost use Rattle.document_tokens.specs.HeldTokens.{held_token, opened_after};
ghost use Rattle.plural_documents.specs.Inner.OutlineSteps.{IsPassed, YieldsHeld};

use document_tokens::HeldToken;
use std::marker::Model;

// The tokens that are left.
#[derive(Drop)]
pub(crate) struct TokensLeft<'t, 'a> {
    tokens: &'t [HeldToken<'a>],
}

impl<'t, 'a> Model for TokensLeft<'t, 'a> {
    ghost use Rattle.std.specs.Prelude.{List, map};
    ghost use Rattle.document_tokens.specs.HeldTokens.{Held, held_token};

    ghost Value = { List Held };

    ghost view = { λ left. map held_token left.tokens.now };
}

impl<'t, 'a> TokensLeft<'t, 'a> {
    // All of these.
    pub(crate) fn of(tokens: &'t [HeldToken<'a>]) -> TokensLeft<'t, 'a>
        ensures { result ≡ map held_token tokens.now }
    {
        TokensLeft { tokens }
    }

    // Takes the next one.
    pub(crate) fn next(&mut self) -> Option<HeldToken<'a>>
        ensures { YieldsHeld self.old result self.new }
    {
        match self.tokens {
            [first, rest @ ..] => {
                self.tokens = rest;
                Some(*first)
            }
            [] => None,
        }
    }

    // Goes past the value that begins with this token.
    pub(crate) fn pass_value(&mut self, first: HeldToken<'_>)
        ensures passed { IsPassed (held_token first.entry ∷ self.old) self.new }
        ensures shorter { length self.new ≤ length self.old }
    {
        let mut opened = opened_after(0, first);
        let mut tokens = self.tokens;
        while opened > 0 {
            let [token, rest @ ..] = tokens else {
                break;
            };
            opened = opened_after(opened, *token);
            tokens = rest;
        }
        self.tokens = tokens;
    }
}

// How many arrays and objects are open after a token.
fn opened_after(opened: usize, token: HeldToken<'_>) -> usize
    requires { opened + 1 < 2 ^ 64 }
    ensures { result ≡ opened_after opened (held_token token.entry) }
{
    match token {
        HeldToken::BeginObject | HeldToken::BeginArray => opened + 1,
        HeldToken::EndObject | HeldToken::EndArray => opened.saturating_sub(1),
        _ => opened,
    }
}

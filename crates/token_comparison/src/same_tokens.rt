//! Texts that have the same tokens.

ghost use Rattle.std.specs.Prelude.{◌≡◌, ◌≢◌, IsTrue, List, MatchBool};
ghost use Rattle.plural_reference.specs.Lexer.{AreTokensOf};
ghost use Rattle.plural_reference.specs.declared.token.Token.{Token};
ghost use Rattle.token_comparison.specs.SameTokens.{HaveOtherTokens, HaveSameTokens};

use plural_reference::Lexer;

/// Returns whether two texts have the same tokens, as [`Lexer`] gives them. It allocates nothing.
pub fn has_tokens_of(text: &str, other: &str) -> bool
    ensures { MatchBool result (HaveSameTokens text.now other.now) (HaveOtherTokens text.now other.now) }
{
    // Most texts of CLDR are as they print, but for spaces at the front.
    if is_behind_spaces(text, other) {
        // Only for the proof: shows that the other text has tokens.
        let _tokens = Lexer::new(other.as_bytes());
        return true;
    }
    are_cut_alike(text, other)
}

// The same by cutting both.
fn are_cut_alike(text: &str, other: &str) -> bool
    ensures { MatchBool result (HaveSameTokens text.now other.now) (HaveOtherTokens text.now other.now) }
{
    are_equal(Lexer::new(text.as_bytes()), Lexer::new(other.as_bytes()))
}

// Whether a text is another one behind spaces, or none.
fn is_behind_spaces(text: &str, other: &str) -> bool
    ensures { IsTrue result → (tokens : List Token) → AreTokensOf other.now tokens → AreTokensOf text.now tokens }
{
    let mut rest = text.as_bytes();
    'spaces: while let Some((first, after)) = rest.split_first() {
        if *first != b' ' || rest.len() <= other.len() {
            break;
        }
        rest = after;
    }
    rest == other.as_bytes()
}

// Whether the remaining tokens are the same.
fn are_equal(mut tokens: Lexer<'_>, mut others: Lexer<'_>) -> bool
    ensures { MatchBool result (tokens.entry ≡ others.entry) (tokens.entry ≢ others.entry) }
{
    while let Some(token) = tokens.next() {
        if others.next() != Some(token) {
            return false;
        }
    }
    others.next().is_none()
}

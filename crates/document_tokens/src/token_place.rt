//! Which tokens may come at a place of a JSON text.

ghost use Rattle.std.specs.Bool.{MatchBool};
ghost use Rattle.std.specs.Prelude.{◌≡◌, [], length, true};
ghost use Rattle.json.specs.Token.{key};
ghost use Rattle.document_tokens.specs.Inner.OpenBrackets.{GoesByScalar, IsAfter, IsRefusedToken, PassesToken, beginning, ending, goes_on, may_have_value};

use crate::nesting::Nesting;

// A place of a text: what is open there, and whether a value has to come, as at the start and after
// a key.
#[derive(Drop)]
pub(crate) struct TokenPlace {
    open: Nesting,
    is_due: bool,
}

impl TokenPlace {
    // The start of a text.
    pub(crate) fn start() -> TokenPlace
        ensures { (result.is_due ≡ true) × (result.open ≡ []) }
    {
        TokenPlace {
            open: Nesting::none(),
            is_due: true,
        }
    }

    // Whether a value has ended, and nothing is open.
    pub(crate) fn is_end(&self) -> bool
        ensures { MatchBool result (IsAfter self.now []) (IsAfter self.now [] → ⊥) }
    {
        !self.is_due && self.open.innermost().is_none()
    }

    // How many objects and arrays are open.
    #[inline(always)]
    pub(crate) fn depth(&self) -> u32
        ensures { result ≡ length self.now.open }
    {
        self.open.depth()
    }

    // Whether it goes on in an object, if this is true, or in an array.
    fn goes_on(&self, is_object: bool) -> bool
        ensures { result ≡ goes_on is_object self.now.is_due self.now.open }
    {
        !self.is_due && self.open.is_in(is_object)
    }

    // Whether a value may come.
    fn may_have_value(&self) -> bool
        ensures { result ≡ may_have_value self.now.is_due self.now.open }
    {
        self.is_due || self.goes_on(false)
    }

    // Goes on in an object or an array. It may not come here if this is false.
    pub(crate) fn begin(&mut self, is_object: bool) -> bool
        ensures { MatchBool result (PassesToken self.old (beginning is_object) self.new) (IsRefusedToken self.old (beginning is_object)) }
    {
        if !self.may_have_value() {
            return false;
        }
        self.is_due = false;
        self.open.open(is_object)
    }

    // Goes on behind an object or an array, unless it is false.
    pub(crate) fn end(&mut self, is_object: bool) -> bool
        ensures { MatchBool result (PassesToken self.old (ending is_object) self.new) (IsRefusedToken self.old (ending is_object)) }
    {
        if !self.goes_on(is_object) {
            return false;
        }
        self.open.close();
        true
    }

    // Goes on behind a key, unless it is false.
    pub(crate) fn pass_key(&mut self, name: &str) -> bool
        ensures { MatchBool result (PassesToken self.old (key name.now) self.new) (IsRefusedToken self.old (key name.now)) }
    {
        if !self.goes_on(true) {
            return false;
        }
        self.is_due = true;
        true
    }

    // Goes on behind a value that is no object and no array, unless it is false.
    pub(crate) fn pass_scalar(&mut self) -> bool
        ensures { GoesByScalar result self.old self.new }
    {
        if !self.may_have_value() {
            return false;
        }
        self.is_due = false;
        true
    }
}

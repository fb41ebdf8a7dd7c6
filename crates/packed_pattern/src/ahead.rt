//! What stands ahead of a place in the parts of a block.

ghost use Rattle.std.specs.Prelude.{◌≡◌, ◌∷◌, ◌++◌, ◌<◌, ◌≤◌, ◌+◌, ◌-◌, ℕ, List, Option, IfSome, IsTrue, flat_map, true};
ghost use Rattle.message_pattern.specs.PatternParts.{Begin, Branch, Exactly, Keyword};
ghost use Rattle.message_pattern.specs.declared.part.ArgumentKind.TheVariants.{Plural, Select};
ghost use Rattle.packed_list.specs.ListBytes.{two_bytes};
ghost use Rattle.packed_part.specs.PackedParts.{is_packable_piece, own_bytes};
ghost use Rattle.packed_part.specs.PartPlaces.{or_place};
ghost use Rattle.packed_pattern.specs.Inner.PlacesAhead.{IsContent, ended_at, passed, plural_ahead};

// Where the argument and the branch end that a part at a depth would begin, and where the branches of
// the argument are: behind their selectors, 0 if there is none.
#[derive(Clone, Copy)]
pub(crate) struct Ahead {
    argument: u16,
    branch: u16,
    number: u16,
    zero: u16,
    one: u16,
    two: u16,
    few: u16,
    many: u16,
    other: u16,
}

// Everything ends at an index.
pub(crate) fn ended_at(index: u16) -> Ahead
    ensures { result ≡ ended_at index }
{
    Ahead {
        argument: index,
        branch: index,
        number: 0,
        zero: 0,
        one: 0,
        two: 0,
        few: 0,
        many: 0,
        other: 0,
    }
}

impl Ahead {
    // Goes on to the selector of a keyword at an index, of whose item these bytes stand behind the depth.
    // Returns whether they are its places and a keyword.
    #[inline(always)]
    pub(crate) fn take_keyword(&mut self, content: &[u8], index: usize) -> bool
        requires { index < 65535 }
        ensures { IsTrue result → (word : List ℕ) × IsContent (Branch (Keyword word)) index self.old content.now
            × (self.new ≡ passed (Branch (Keyword word)) index self.old) }
    {
        let Some(word) = behind_place(content, place_from(index + 1, self.branch)) else {
            return false;
        };
        self.pass_keyword(word, index as u16);
        true
    }

    // What stands ahead from the selector of a keyword at an index on.
    #[inline(always)]
    fn pass_keyword(&mut self, word: &[u8], index: u16)
        requires { index < 65535 }
        ensures { self.new ≡ passed (Branch (Keyword word.now)) index self.old }
    {
        self.branch = index;
        match word {
            b"zero" => self.zero = index + 1,
            b"one" => self.one = index + 1,
            b"two" => self.two = index + 1,
            b"few" => self.few = index + 1,
            b"many" => self.many = index + 1,
            b"other" => self.other = index + 1,
            _ => {}
        }
    }

    // Goes on to the selector of a number, likewise.
    #[inline(always)]
    pub(crate) fn take_number(&mut self, content: &[u8], index: usize) -> bool
        requires { index < 65535 }
        ensures { IsTrue result → (number : List ℕ) × IsContent (Branch (Exactly number)) index self.old content.now
            × (self.new ≡ passed (Branch (Exactly number)) index self.old) }
    {
        let Some(rest) = behind_place(content, place_from(index + 1, self.branch)) else {
            return false;
        };
        if behind_place(rest, place_from(index + 1, self.number)).is_none() {
            return false;
        }
        self.branch = index as u16;
        self.number = index as u16 + 1;
        true
    }

    // Whether these bytes stand behind the depth in the item of a select at an index.
    #[inline(always)]
    pub(crate) fn is_select(&self, content: &[u8], index: usize) -> bool
        requires { index < 65535 }
        ensures { IsTrue result → (name : List ℕ) × (offset : Option (List ℕ)) × IsContent (Begin Select name offset) index self.now content.now }
    {
        let Some(rest) = behind_place(content, place_from(index + 1, self.argument)) else {
            return false;
        };
        match behind_place(rest, place_from(index + 1, self.other)) {
            Some(own) => is_begin(own),
            None => false,
        }
    }

    // Whether these bytes stand behind the depth in the item of a plural or an ordinal at an index.
    #[inline(always)]
    pub(crate) fn is_plural(&self, content: &[u8], index: usize) -> bool
        requires { index < 65535 }
        ensures { IsTrue result → (name : List ℕ) × (offset : Option (List ℕ)) × IsContent (Begin Plural name offset) index self.now content.now }
    {
        match self.behind_plural(content, index + 1) {
            Some(own) => is_begin(own),
            None => false,
        }
    }

    // What stands behind the places of a plural, which are counted from a start.
    #[inline(always)]
    fn behind_plural<'a>(&self, content: &'a [u8], start: usize) -> Option<&'a [u8]>
        ensures { IfSome result (λ own. content.now ≡ flat_map two_bytes (plural_ahead start self.now) ++ own.now) }
    {
        let last = place_from(start, self.other);
        let rest = behind_place(content, place_from(start, self.argument))?;
        let rest = behind_place(rest, place_from(start, self.number))?;
        let rest = behind_place(rest, or_place(place_from(start, self.zero), last))?;
        let rest = behind_place(rest, or_place(place_from(start, self.one), last))?;
        let rest = behind_place(rest, or_place(place_from(start, self.two), last))?;
        let rest = behind_place(rest, or_place(place_from(start, self.few), last))?;
        let rest = behind_place(rest, or_place(place_from(start, self.many), last))?;
        behind_place(rest, last)
    }
}

// What stands behind a place, if bytes begin with it.
#[inline(always)]
fn behind_place(bytes: &[u8], place: usize) -> Option<&[u8]>
    requires { place ≤ 65535 }
    ensures { IfSome result (λ rest. bytes.now ≡ two_bytes place ++ rest.now) }
{
    match bytes {
        [low, high, rest @ ..] if usize::from(*low) + 256 * usize::from(*high) == place => {
            Some(rest)
        }
        _ => None,
    }
}

// Whether bytes are the length of a name, the name, and the digits of an offset.
#[inline(always)]
fn is_begin(own: &[u8]) -> bool
    ensures { IsTrue result → (name : List ℕ) × (offset : Option (List ℕ)) × (own.now ≡ own_bytes (Begin Select name offset))
        × (is_packable_piece (Begin Select name offset) ≡ true) }
{
    match own {
        [count, rest @ ..] => usize::from(*count) <= rest.len(),
        [] => false,
    }
}

// The place of an index, counted from a start, and 0 if there is none.
#[inline(always)]
fn place_from(start: usize, index: u16) -> usize
    ensures place { result ≡ index - start }
    ensures few { result ≤ 65535 }
{
    let index = usize::from(index);
    if index < start { 0 } else { index - start }
}

// A place, or another one if there is none.
#[inline(always)]
fn or_place(place: usize, other: usize) -> usize
    requires place { place ≤ 65535 }
    requires other { other ≤ 65535 }
    ensures place { result ≡ or_place place other }
    ensures few { result ≤ 65535 }
{
    if place == 0 { other } else { place }
}

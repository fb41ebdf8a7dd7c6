//! The parts of a pattern.

/// An argument that chooses among branches.
#[derive(Clone, Copy, Debug, PartialEq, Eq)]
pub enum ArgumentKind {
    /// `plural`: by the category of a cardinal number.
    Plural,
    /// `selectordinal`: by the category of an ordinal number.
    Ordinal,
    /// `select`: by a text.
    Select,
}

/// What a branch is for.
#[derive(Clone, Copy, Debug)]
pub enum Selector<'p> {
    /// `=` and a number: the number as it is written.
    Exactly(&'p [u8]),
    /// A keyword.
    Keyword(&'p [u8]),
}

/// A piece of a pattern.
#[derive(Clone, Copy, Debug)]
pub enum Piece<'p> {
    /// Text that stands for itself, without the apostrophes that quote. A text that has `'`, `{`,
    /// `}` or `#` in it comes in several pieces.
    Text(&'p [u8]),
    /// `#` in a branch of a plural: the number, less the offset.
    Hash,
    /// `{name}`: the name. In a [`StyledPattern`](crate::StyledPattern) all between the braces, as
    /// `d, date, short`.
    Argument(&'p [u8]),
    /// The beginning of an argument that chooses: its kind, its name, and the digits of its offset.
    Begin(ArgumentKind, &'p [u8], Option<&'p [u8]>),
    /// The selector of a branch. The branch is the parts after it that are deeper.
    Branch(Selector<'p>),
    /// The end of an argument that chooses.
    End,
}

/// A piece of a pattern, and how many branches it is in.
#[derive(Clone, Copy, Debug)]
pub struct Part<'p> {
    /// How many branches it is in.
    pub depth: usize,
    /// What it is.
    pub piece: Piece<'p>,
}

//! Arguments where they stand in a text.

/// What a directive converts.
#[derive(Clone, Copy, Debug, PartialEq, Eq)]
pub enum Kind {
    /// An integer, as `%d`. In Python, JavaScript and Boost all integers are one kind.
    Integer,
    /// An integer without a sign, as C's `%u` and `%x`.
    Unsigned,
    /// Another number, as `%f`.
    Number,
    Character,
    Text,
    /// What this letter converts, as C's `%p`.
    Other(u8),
    /// The directive doesn't say, as `%1` and `{name}`.
    Unknown,
}

/// How an argument is named.
#[derive(Clone, Copy, Debug)]
pub enum Name<'t> {
    /// Its place: written in the directive, or counted, from 0 on in braces, else from 1 on.
    Place(usize),
    Word(&'t [u8]),
}

/// An argument where it stands in a text.
#[derive(Clone, Copy, Debug)]
pub struct Argument<'t> {
    /// The byte where its directive begins.
    pub start: usize,
    /// The byte behind it.
    pub end: usize,
    pub name: Name<'t>,
    pub kind: Kind,
    /// How its size is written, as C's `ll`; `l` of `%C` and `%S`, empty where the format has no sizes.
    pub size: &'t [u8],
}

/// The arguments of a text.
#[derive(Debug, Drop)]
pub struct Arguments<'t> {
    /// Its arguments, in the order in which they stand there, up to its first fault.
    pub items: Vec<Argument<'t>>,
    /// The byte where something begins as a directive and is none, as a lone `%`.
    pub fault: Option<usize>,
}

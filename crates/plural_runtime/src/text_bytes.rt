//! The relations of a text, packed as they are read.

ghost use Rattle.std.specs.Prelude.{◌≡◌, [], OnOk};
ghost use Rattle.plural_reference.specs.RelationSinks.{nothing};
ghost use Rattle.plural_runtime.specs.Inner.TextItems.{HoldsPacked, cut, mark};

use crate::item::HEAD_LENGTH;
use crate::kinds::AndOr;
use crate::tree_bytes::{head_of, range_of};
use packed_list::ByteItems;
use plural_reference::RelationSink;
use plural_reference::ast::{Expression, Operator, RangeListItem};
use smallvec::SmallVec;
use std::alloc::{AllocError, Global};

// For how many bytes there is room at first: all that most texts take.
const BYTE_ROOM: usize = 128;

// How many lengths take no memory.
const INLINE_LENGTHS: usize = 8;

// How many bytes of ranges.
const INLINE_BYTES: usize = 32;

// The bytes of the relations, how many each has, and the bytes of the next one's ranges.
#[derive(Drop)]
pub(crate) struct TextRelations {
    bytes: Vec<u8>,
    lengths: SmallVec<usize, INLINE_LENGTHS>,
    ranges: SmallVec<u8, INLINE_BYTES>,
}

impl TextRelations {
    // None yet.
    pub(crate) fn new(alloc: Global) -> TextRelations
        ensures { HoldsPacked result nothing [] }
    {
        TextRelations {
            bytes: Vec::new(alloc),
            lengths: SmallVec::new(alloc),
            ranges: SmallVec::new(alloc),
        }
    }

    // The items, one for each relation.
    pub(crate) fn items(&self) -> CutItems<'_>
        ensures { cut result.lengths.now result.bytes.now
            ≡ cut self.now.lengths.items self.now.bytes.items }
    {
        CutItems {
            lengths: self.lengths.as_slice(),
            bytes: self.bytes.as_slice(),
        }
    }
}

impl RelationSink for TextRelations {
    ghost use Rattle.plural_runtime.specs.Inner.TextItems.{HoldsPacked};

    ghost holds = { HoldsPacked };

    #[inline(always)]
    fn push(&mut self, _alloc: Global, range: RangeListItem) -> Result<(), AllocError> {
        self.ranges.extend_from_slice(&range_of(&range))?;
        Ok(())
    }

    #[inline(always)]
    fn take(
        &mut self,
        _alloc: Global,
        expression: Expression,
        operator: Operator,
        is_after_or: bool,
    ) -> Result<(), AllocError> {
        make_room(&mut self.bytes)?;
        let start = self.bytes.as_slice().len();
        let head = head_of(mark(is_after_or), operator, &expression);
        self.bytes.extend_from_slice(&head)?;
        self.bytes.extend_from_slice(self.ranges.as_slice())?;
        self.lengths.push(self.bytes.as_slice().len() - start)?;
        self.ranges.clear();
        Ok(())
    }
}

// Makes room for all that most texts take, unless there are bytes.
#[inline(always)]
fn make_room(bytes: &mut Vec<u8>) -> Result<(), AllocError>
    ensures { OnOk result (bytes.new.items ≡ bytes.old.items) }
{
    if bytes.is_empty() {
        bytes.reserve(BYTE_ROOM)?;
    }
    Ok(())
}

// The mark of a relation: after `or` it begins an and-condition.
#[inline]
fn mark(is_after_or: bool) -> AndOr
    ensures { result ≡ mark is_after_or }
{
    if is_after_or { AndOr::Or } else { AndOr::And }
}

// The remaining items: how many bytes each has, and the bytes.
#[derive(Clone, Copy)]
pub(crate) struct CutItems<'a> {
    lengths: &'a [usize],
    bytes: &'a [u8],
}

impl<'a> ByteItems for CutItems<'a> {
    ghost use Rattle.plural_runtime.specs.Inner.TextItems.{cut};

    type Item = &'a [u8];

    ghost items = { λ walk. cut walk.lengths.now walk.bytes.now };

    #[inline]
    fn next_item(&mut self) -> Option<&'a [u8]> {
        let (length, lengths) = self.lengths.split_first()?;
        let (item, bytes) = self.bytes.split_at(self.bytes.len().min(*length));
        self.lengths = lengths;
        self.bytes = bytes;
        Some(item)
    }
}

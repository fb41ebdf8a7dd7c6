//! The keys of messages, with the keys of the objects around them.

use crate::json_file::key_tree::{KeyTree, Piece};
use std::alloc::{AllocError, Global};

// The most bytes that the objects around keys may add to these, in all messages of a file: so the
// key of an object isn't copied again and again without end.
const MOST_AROUND: usize = 8_388_608;

// The most bytes of the objects around a key that are printed with it.
const MOST_SHOWN: usize = 64;

// What may still be added, and the messages for which it wasn't enough.
#[derive(Drop)]
pub(crate) struct MessageKeys<'k, 'a> {
    keys: &'k KeyTree<'a>,
    room: usize,
    pub(crate) left_out: u64,
    // The line of the first one.
    pub(crate) line: Option<u64>,
}

impl<'k, 'a> MessageKeys<'k, 'a> {
    pub(crate) fn new(keys: &'k KeyTree<'a>) -> MessageKeys<'k, 'a> {
        MessageKeys {
            keys,
            room: MOST_AROUND,
            left_out: 0,
            line: None,
        }
    }

    // The key of a message in a line, unless it is too long.
    pub(crate) fn key_of(
        &mut self,
        piece: Piece<'a>,
        line: u64,
    ) -> Result<Option<String>, AllocError> {
        let around = self.keys.length(piece.parent);
        if around > self.room {
            self.left_out = self.left_out.saturating_add(1);
            if self.line.is_none() {
                self.line = Some(line);
            }
            return Ok(None);
        }
        self.room = self.room.saturating_sub(around);
        match self.keys.key(piece) {
            Ok(key) => Ok(Some(key)),
            Err(error) => Err(error),
        }
    }
}

// The key of a place as it is shown: with the objects around it, if these aren't long.
pub(crate) fn shown_key(
    alloc: Global,
    keys: &KeyTree<'_>,
    place: usize,
) -> Result<String, AllocError> {
    match keys.piece(place) {
        Some(piece) if keys.length(piece.parent) > MOST_SHOWN => {
            String::from_str(alloc, piece.name)
        }
        Some(piece) => keys.key(piece),
        None => Ok(String::new(alloc)),
    }
}

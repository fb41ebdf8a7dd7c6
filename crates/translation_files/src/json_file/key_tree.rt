//! The keys of a JSON file, cut at their dots, as a tree: an object and a dot lead to one place.

use crate::pushed::push;
use std::alloc::{AllocError, Global};
use std::collections::BTreeMap;

// How many dots keys are cut at, in all keys of a file: what stands behind them is one piece.
const MOST_CUTS: usize = 262_144;

// The place of the outermost object.
pub(crate) const ROOT: usize = 0;

// A piece of a key, below the place that the pieces before it lead to.
#[derive(Clone, Copy, PartialEq, Eq, PartialOrd, Ord)]
pub(crate) struct Piece<'a> {
    pub(crate) parent: usize,
    pub(crate) name: &'a str,
}

// Where a piece leads to.
#[derive(Clone, Copy)]
struct KeyPlace<'a> {
    piece: Piece<'a>,
    // How many bytes all pieces up to here have, with their dots.
    length: usize,
    // The line of the first text of this key.
    line: Option<u64>,
}

// The tree.
#[derive(Drop)]
pub(crate) struct KeyTree<'a> {
    alloc: Global,
    places: Vec<KeyPlace<'a>>,
    known: BTreeMap<Piece<'a>, usize>,
    // How many more dots keys are cut at.
    cuts: usize,
}

impl<'a> KeyTree<'a> {
    // The outermost object alone.
    pub(crate) fn new(alloc: Global) -> KeyTree<'a> {
        KeyTree {
            alloc,
            places: Vec::new(alloc),
            known: BTreeMap::new(alloc),
            cuts: MOST_CUTS,
        }
    }

    // The place of a key below a place.
    pub(crate) fn place_of(&mut self, parent: usize, key: &'a str) -> Result<usize, AllocError> {
        let mut place = parent;
        let mut rest = key;
        for _ in 0..self.cuts {
            let Some((front, after)) = rest.split_once('.') else {
                break;
            };
            place = self.below(place, front)?;
            rest = after;
            self.cuts = self.cuts.saturating_sub(1);
        }
        self.below(place, rest)
    }

    // The place of a piece, which is added if it is new.
    fn below(&mut self, parent: usize, name: &'a str) -> Result<usize, AllocError> {
        let piece = Piece { parent, name };
        let next = self.places.len().saturating_add(1);
        let place = *self.known.entry(piece)?.or_insert(next);
        if place == next {
            self.add(piece)?;
        }
        Ok(place)
    }

    // Adds the place of a piece.
    fn add(&mut self, piece: Piece<'a>) -> Result<(), AllocError> {
        let length = self.length(piece.parent).saturating_add(piece.name.len());
        let place = KeyPlace {
            piece,
            length: length.saturating_add(1),
            line: None,
        };
        push(&mut self.places, place)
    }

    // What is known of a place, unless it is that of the outermost object.
    fn at(&self, place: usize) -> Option<&KeyPlace<'a>> {
        match place.checked_sub(1) {
            Some(index) => self.places.get(index),
            None => None,
        }
    }

    // How many bytes the key of a place has, with a dot behind it.
    pub(crate) fn length(&self, place: usize) -> usize {
        match self.at(place) {
            Some(found) => found.length,
            None => 0,
        }
    }

    // The last piece of a place.
    pub(crate) fn piece(&self, place: usize) -> Option<Piece<'a>> {
        match self.at(place) {
            Some(found) => Some(found.piece),
            None => None,
        }
    }

    // Keeps the line of a text at its place, unless there is one already. Returns whether it was kept.
    pub(crate) fn keep_line(&mut self, place: usize, line: u64) -> bool {
        let index = place.saturating_sub(1);
        match self.places.get_mut(index) {
            Some(found) if found.line.is_none() => {
                found.line = Some(line);
                true
            }
            _ => false,
        }
    }

    // The key of a piece: all pieces on the way to it, joined by dots.
    pub(crate) fn key(&self, last: Piece<'a>) -> Result<String, AllocError> {
        let mut names = Vec::new(self.alloc);
        match self.push_names(&mut names, last.parent) {
            Ok(()) => joined(self.alloc, names.as_slice(), last.name),
            Err(error) => Err(error),
        }
    }

    // Appends the pieces of a place, the last one first.
    fn push_names(&self, names: &mut Vec<&'a str>, place: usize) -> Result<(), AllocError> {
        let mut at = place;
        for _ in 0..self.places.len() {
            let Some(piece) = self.piece(at) else {
                break;
            };
            push(names, piece.name)?;
            at = piece.parent;
        }
        Ok(())
    }
}

// Names, the last one first, and one behind these, joined by dots.
fn joined(alloc: Global, names: &[&str], last: &str) -> Result<String, AllocError> {
    let mut key = String::new(alloc);
    match push_joined(&mut key, names, last) {
        Ok(()) => Ok(key),
        Err(error) => Err(error),
    }
}

// Appends names, the last one first, and one behind these, joined by dots.
fn push_joined(key: &mut String, names: &[&str], last: &str) -> Result<(), AllocError> {
    for name in names.iter().rev() {
        key.push_str(name)?;
        key.push_str(".")?;
    }
    key.push_str(last)
}

//! A list that contracts see as a list.

ghost use Rattle.std.specs.Prelude.{◌≡◌, ◌==◌, ◌<◌, ◌^◌, length, Some, slice_get};
ghost use Rattle.std.specs.Option.{option_copied};
ghost use Rattle.std.specs.Cmp.Lexicographic.{pointwise, lists_per};
ghost use Rattle.std.specs.Iterator.Runs.{EveryRun, ItemsAre, ItemsMapTo};
ghost use Rattle.std.specs.Slice.Iter.{iter_rest, iter_steps};
ghost use Rattle.std.specs.declared.alloc.Global.{Global as Heap};
ghost use Rattle.std.specs.Vec.Iter.{into_iter_items, into_iter_len, into_iter_steps};

use std::alloc::Global;
use std::marker::Model;
use std::ops::Index;
use std::slice::Iter;
use std::vec::IntoIter;

/// A `Vec`, seen by contracts as the list of its elements. `From` makes it from a `Vec` and gives
/// the `Vec` back, without an allocation.
///
/// <!-- snippet crates/tests_libraries/src/tests/plural_reference_trees.rt:
/// example "let list = RangeList" to "holds!(rt; list.0[1]" of fn lists_of_a_tree_are_read_like_a_vec -->
/// ```
/// let list = RangeList(vec![in alloc;
///     RangeListItem::Range(Value(3), Value(4)),
///     RangeListItem::Value(Value(9)),
/// ]?
/// .into());
/// assert!(rt; list.0.len() == 2 && !list.0.is_empty());
/// assert!(rt; list.0[1] == RangeListItem::Value(Value(9)));
/// ```
#[derive(Debug, Drop)]
pub struct Sequence<T>(pub Vec<T>);

impl<T> Model for Sequence<T> {
    ghost use Rattle.std.specs.Prelude.{List};

    ghost Value = { List T };

    ghost view = { λ a. a.0.items };
}

impl<T: PartialEq> PartialEq for Sequence<T> {
    ghost eq = { pointwise T.eq };

    ghost laws = { lists_per T.laws };

    fn eq(&self, other: &Self) -> bool {
        self.as_slice() == other.as_slice()
    }
}

/// The list of the elements of the `Vec`.
impl<T> From<Vec<T>> for Sequence<T> {
    ghost from_gives = { λ elements sequence. sequence ≡ elements.items };

    #[inline]
    fn from(elements: Vec<T>) -> Sequence<T> {
        Sequence(elements)
    }
}

/// The `Vec` of the elements of the list.
impl<T> From<Sequence<T>> for Vec<T> {
    ghost from_gives = { λ sequence elements. elements.items ≡ sequence };

    #[inline]
    fn from(sequence: Sequence<T>) -> Vec<T> {
        sequence.0
    }
}

impl<T> Sequence<T> {
    /// Returns the elements.
    #[inline]
    pub fn as_slice(&self) -> &[T]
        ensures { result.now ≡ self.now }
    {
        self.0.as_slice()
    }

    /// Returns the number of elements.
    #[inline]
    pub fn len(&self) -> usize
        ensures { result ≡ length self.now }
    {
        self.0.len()
    }

    /// Returns whether the list has no element.
    #[inline]
    pub fn is_empty(&self) -> bool
        ensures { result ≡ (length self.now == 0) }
    {
        self.0.is_empty()
    }

    /// Returns the element at a place, counted from 0.
    #[inline]
    pub fn get(&self, index: usize) -> Option<&T>
        ensures { option_copied result ≡ slice_get self.now index }
    {
        self.as_slice().get(index)
    }

    /// Returns the elements, from the first one on.
    #[inline]
    pub fn iter(&self) -> Iter<'_, T>
        ensures rest { iter_rest result ≡ self.now }
        ensures fits { length (iter_rest result) < 2 ^ 64 }
        ensures runs { EveryRun (iter_steps {A = T}) (λ p. ItemsMapTo p (λ element. element.now) (iter_rest p.from)) }
    {
        self.as_slice().iter()
    }
}

/// The element at a place of the list, counted from 0.
impl<T> Index<usize> for Sequence<T> {
    type Output = T;

    ghost can_index = { λ sequence index. index < length sequence };

    ghost index_gives = { λ sequence index element. slice_get sequence index ≡ Some element };

    #[inline]
    fn index(&self, index: usize) -> &T {
        &self.as_slice()[index]
    }
}

/// The elements themselves, from the first one on.
impl<T: Drop> IntoIterator for Sequence<T> {
    type Item = T;

    type IntoIter = IntoIter<T, Global>;

    ghost into_iter_gives = { λ sequence elements. (into_iter_items elements ≡ sequence)
        × (into_iter_len elements ≡ length sequence) × (into_iter_len elements < 2 ^ 64)
        × EveryRun (into_iter_steps {X = T} {Z = Heap}) (λ p. ItemsAre p (into_iter_items p.from)) };

    #[inline]
    fn into_iter(self) -> IntoIter<T, Global> {
        self.0.into_iter()
    }
}

/// The elements, from the first one on, each borrowed.
impl<'a, T> IntoIterator for &'a Sequence<T> {
    type Item = &'a T;

    type IntoIter = Iter<'a, T>;

    ghost into_iter_gives = { λ sequence elements. (iter_rest elements ≡ sequence.now)
        × (length (iter_rest elements) < 2 ^ 64)
        × EveryRun (iter_steps {A = T}) (λ p. ItemsMapTo p (λ element. element.now) (iter_rest p.from)) };

    #[inline]
    fn into_iter(self) -> Iter<'a, T> {
        self.iter()
    }
}

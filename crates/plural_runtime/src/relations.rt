//! The iterator over the relations of a rule.

ghost use Rattle.std.specs.Prelude.{◌≡◌, map, IsTrue, length, Some, IfSome, ◌≤◌};
ghost use Rattle.std.specs.List.{list_all};
ghost use Rattle.std.specs.Iterator.{YieldsFirstBy, item_count, UpTo, at_most};
ghost use Rattle.plural_runtime.specs.PackedRelations.{is_relation};
ghost use Rattle.plural_runtime.specs.Inner.RuleReading.{relation_in};
ghost use Rattle.plural_runtime.specs.Inner.RuleViews.{item_relation};

use crate::relation::RelationULE;
use packed_list::Items;
use std::marker::Model;

/// The remaining relations of a rule.
#[derive(Debug, Drop)]
pub struct Relations<'a> {
    items: Items<'a>,
}

impl<'a> Model for Relations<'a> {
    ghost use Rattle.std.specs.Prelude.{List, map, IsTrue};
    ghost use Rattle.std.specs.List.{list_all};
    ghost use Rattle.plural_runtime.specs.PackedRelations.{PackedRelation};

    ghost Value = { List PackedRelation };

    ghost use Rattle.plural_runtime.specs.PackedRelations.{is_relation};
    ghost use Rattle.plural_runtime.specs.Inner.RuleReading.{relation_in};

    ghost view = { λ relations. map relation_in relations.items };

    ghost invariant = { λ relations. IsTrue (list_all is_relation relations.items) };
}

impl<'a> Relations<'a> {
    // The relations of items that were checked.
    #[inline]
    pub(crate) fn of(items: Items<'a>) -> Relations<'a>
        requires { IsTrue (list_all is_relation items) }
        ensures { result ≡ map relation_in items.entry }
    {
        Relations { items }
    }
}

impl<'a> Iterator for Relations<'a> {
    type Item = RelationULE<'a>;

    ghost next_gives = { YieldsFirstBy item_relation (λ relations. relations) };

    ghost remaining = { item_count (λ relations. relations) };

    #[inline]
    fn next(&mut self) -> Option<RelationULE<'a>> {
        let item = self.items.next()?;
        Some(RelationULE::from_checked(item))
    }

    // Exact: the count of the remaining relations.
    #[inline]
    fn size_hint(&self) -> (usize, Option<usize>)
        ensures exact { result ≡ (length self.now, Some (length self.now)) }
        ensures lower { result.0 ≤ length self.now }
        ensures upper { IfSome result.1 (UpTo (at_most (length self.now))) }
    {
        self.items.size_hint()
    }
}

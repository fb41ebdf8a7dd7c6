//! What rules tell of all numbers of each of some classes.

ghost use Rattle.std.specs.Prelude.{◌≡◌, ◌<◌, ◌&&◌, ℕ, Bool, false, true, not, if◌then◌else◌, length, slice_index_or, None, Some};
ghost use Rattle.plural_operands.specs.Operands.{Operands};
ghost use Rattle.plural_runtime.specs.Inner.RuleViews.{lent_relation};
ghost use Rattle.plural_base.specs.declared.category.PluralCategory.{PluralCategory as Category};
ghost use Rattle.plural_base.specs.FiveRules.{passes, rules_of};
ghost use Rattle.plural_base.specs.Inner.Masks.{has_bit, IsToldAt};
ghost use Rattle.plural_base.specs.Inner.WholeNumbers.{earlier_after, group_after, told_category};
ghost use Rattle.plural_base.specs.ToldCategories.{rule_or, truth_or};

use crate::category::PluralCategory;
use crate::for_five;
use crate::rules::data::PluralRulesData;
use crate::rules::told_masks::{Told, both, either, told_alike};
use plural_runtime::{AndOr, Relation, Rule};

// At most 128 classes of numbers, by place, of all of which at once is told what holds.
pub(crate) trait NumberClasses: Copy {
    ghost use Rattle.std.specs.Prelude.{◌<◌, ℕ, Bool, false, true};
    ghost use Rattle.plural_operands.specs.Operands.{Operands};
    ghost use Rattle.plural_runtime.specs.PackedRelations.{PackedRelation};

    // The operands of a number of the class at a place.
    ghost has: { Self → ℕ → Operands → Type 0 };

    // It is told of all numbers of the class whether a relation is true.
    ghost is_told: { Self → ℕ → PackedRelation → Bool };

    // Whether a relation is true of all numbers of a class, of each class where it can be told.
    fn told_relation(self, relation: &Relation<'_>) -> Told
        ensures { (class : ℕ) (o : Operands) → class < 128 → has self class o
            → let told = is_told self class in let relation = lent_relation relation.now in
            IsToldAt class (truth_or false told o relation) (truth_or true told o relation) result };
}

// How far a rule is read: whether a group before the open one is true, and whether the open one is
// so far, as far as each is told.
#[derive(Clone, Copy)]
struct Walk {
    earlier: Told,
    group: Told,
}

// Writes the category that five rules give all numbers of a class, at the place of each wanted class
// where it is told, and nothing where it isn't, in entries of other. A rule is read for those
// classes alone of which each rule before it is told to be false.
pub(crate) fn tell_categories<C: NumberClasses>(
    rules: &PluralRulesData<'_>,
    classes: C,
    wanted: u128,
    entries: &mut [Option<PluralCategory>],
)
    requires { (class : ℕ) → class < length entries.old → slice_index_or entries.old class None ≡ Some Category.Other }
    ensures { (class : ℕ) (o : Operands) → class < 128 → class < length entries.old → C.has classes class o
        → slice_index_or entries.new class None
        ≡ (if has_bit wanted class then told_category (C.is_told classes class) o (rules_of rules.now) else Some Category.Other) }
{
    let mut wanted = wanted;
    for_five!(rules, |rule, category| {
        wanted = tell(rule, category, classes, wanted, entries);
    });
}

// Writes a category for the wanted classes of which its rule is told to be true, and nothing for
// those of which it isn't told. Returns those of which it is told to be false. No rule is read for
// no class.
fn tell<C: NumberClasses>(
    rule: &Option<Rule<'_>>,
    category: PluralCategory,
    classes: C,
    wanted: u128,
    entries: &mut [Option<PluralCategory>],
) -> u128
    ensures written { (class : ℕ) (o : Operands) → class < 128 → class < length entries.old → C.has classes class o
        → slice_index_or entries.new class None
        ≡ (if has_bit wanted class && passes (rule_or false (C.is_told classes class) o) rule.now then Some category
        else (if has_bit wanted class && passes (rule_or true (C.is_told classes class) o) rule.now then None
        else slice_index_or entries.old class None)) }
    ensures left { (class : ℕ) (o : Operands) → class < 128 → C.has classes class o → has_bit result class
        ≡ (has_bit wanted class && not (passes (rule_or true (C.is_told classes class) o) rule.now)) }
{
    let Some(rule) = rule else {
        return wanted;
    };
    if wanted == 0 {
        return 0;
    }
    let told = told_relations(rule, classes, wanted);
    write_at(entries, wanted & told.yes, Some(category));
    write_at(entries, wanted & !(told.yes | told.no), None);
    wanted & told.no
}

// Whether a rule is true of all numbers of a class, of each wanted class where it can be told.
fn told_relations<C: NumberClasses>(rule: &Rule<'_>, classes: C, wanted: u128) -> Told
    ensures { (class : ℕ) (o : Operands) → class < 128 → has_bit wanted class ≡ true → C.has classes class o
        → let told = C.is_told classes class in
        IsToldAt class (rule_or false told o rule.now) (rule_or true told o rule.now) result }
{
    let mut walk = Walk {
        earlier: told_alike(false),
        group: told_alike(true),
    };
    for item in rule.iter() {
        walk = walk_on(walk, &item.as_relation(), classes, wanted);
    }
    either(walk.earlier, walk.group)
}

// The walk after a further relation.
fn walk_on<C: NumberClasses>(walk: Walk, relation: &Relation<'_>, classes: C, wanted: u128) -> Walk
    ensures earlier { (class : ℕ) (b c d e : Bool) → IsToldAt class b c walk.earlier → IsToldAt class d e walk.group
        → let mark = (lent_relation relation.now).and_or in
        IsToldAt class (earlier_after mark b d) (earlier_after mark c e) result.earlier }
    ensures group { (class : ℕ) (o : Operands) (d e : Bool) → class < 128 → has_bit wanted class ≡ true → C.has classes class o
        → IsToldAt class d e walk.group
        → let told = C.is_told classes class in let relation = lent_relation relation.now in
        IsToldAt class (group_after relation.and_or d (truth_or false told o relation))
        (group_after relation.and_or e (truth_or true told o relation)) result.group }
{
    match relation.and_or() {
        AndOr::And => Walk {
            earlier: walk.earlier,
            group: and_relation(walk.group, relation, classes, wanted),
        },
        AndOr::Or => Walk {
            earlier: either(walk.earlier, walk.group),
            group: classes.told_relation(relation),
        },
    }
}

// Whether a group is true with a further relation. The relation of a group that is told to be false
// of each wanted class isn't read.
fn and_relation<C: NumberClasses>(
    group: Told,
    relation: &Relation<'_>,
    classes: C,
    wanted: u128,
) -> Told
    ensures { (class : ℕ) (o : Operands) (d e : Bool) → class < 128 → has_bit wanted class ≡ true → C.has classes class o
        → IsToldAt class d e group
        → let told = C.is_told classes class in let relation = lent_relation relation.now in
        IsToldAt class (d && truth_or false told o relation) (e && truth_or true told o relation) result }
{
    if wanted & !group.no == 0 {
        return group;
    }
    both(group, classes.told_relation(relation))
}

// Writes an entry at each place of a mask that the table has.
fn write_at(entries: &mut [Option<PluralCategory>], places: u128, entry: Option<PluralCategory>)
    ensures { (place : ℕ) → place < 128 → place < length entries.old → slice_index_or entries.new place None
        ≡ (if has_bit places place then entry else slice_index_or entries.old place None) }
{
    if has_each(places, entries.len()) {
        entries.fill(entry);
    } else {
        write_each(entries, places, entry);
    }
}

// Whether a mask has the numbers below a count, of which it is told at once.
fn has_each(places: u128, count: usize) -> bool
    ensures { result ≡ true → (place : ℕ) → place < 128 → place < count → has_bit places place ≡ true }
{
    places & 1 != 0 && places.trailing_ones() as usize >= count
}

// The same, place by place.
fn write_each(entries: &mut [Option<PluralCategory>], places: u128, entry: Option<PluralCategory>)
    ensures { (place : ℕ) → place < 128 → place < length entries.old → slice_index_or entries.new place None
        ≡ (if has_bit places place then entry else slice_index_or entries.old place None) }
{
    let mut left = places;
    while left != 0 {
        let place = left.trailing_zeros() as usize;
        if place >= entries.len() {
            return;
        }
        entries[place] = entry;
        left &= left - 1;
    }
}

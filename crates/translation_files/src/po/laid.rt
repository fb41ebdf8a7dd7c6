//! The indices of a catalog beside the categories of its language.

use crate::po::indices::{Indices, NumberIndex};
use crate::po::numbers::TRIED_BELOW;
use crate::pushed::push;
use icu_plurals::{PluralCategory, PluralOperands, PluralRules};
use message_report::Form;
use std::alloc::{AllocError, Global};

// The index of a form.
#[derive(Clone, Copy)]
pub(crate) struct FormIndex {
    pub(crate) form: Form,
    pub(crate) index: u64,
    // Whether a category of more numbers has the index, too: what is wrong with its text is told of
    // that one alone.
    pub(crate) is_second: bool,
    // Whether it is the form of several numbers, so that the rules tell whether it has the number.
    pub(crate) has_several: bool,
}

// Two numbers of one category that have two indices.
#[derive(Clone, Copy)]
pub(crate) struct Clash {
    pub(crate) category: PluralCategory,
    pub(crate) first: NumberIndex,
    pub(crate) second: NumberIndex,
}

// The forms of a catalog.
#[derive(Drop)]
pub(crate) struct Laid {
    // The forms that numbers have, those of exactly 0 and 1 first.
    pub(crate) forms: Vec<FormIndex>,
    // The categories of the language that no whole number has, as Russian's other.
    pub(crate) unused: Vec<PluralCategory>,
    // The numbers for which the two differ, in their order.
    pub(crate) differing: Vec<u64>,
}

// The numbers of a category, but for exactly 0 and 1 with forms of their own.
#[derive(Clone, Copy)]
struct Group {
    category: PluralCategory,
    first: Option<NumberIndex>,
    second: Option<NumberIndex>,
    size: u64,
}

// Whether exactly 0 and exactly 1 have forms of their own.
#[derive(Clone, Copy)]
struct Own {
    zero: bool,
    one: bool,
}

impl Own {
    fn has(&self, number: u64) -> bool {
        number == 0 && self.zero || number == 1 && self.one
    }
}

// A number that is tried, and its category.
#[derive(Clone, Copy)]
struct Tried {
    number: NumberIndex,
    category: PluralCategory,
}

impl Laid {
    // No forms yet.
    pub(crate) fn new(alloc: Global) -> Laid {
        Laid {
            forms: Vec::new(alloc),
            unused: Vec::new(alloc),
            differing: Vec::new(alloc),
        }
    }
}

// Lays the indices of a catalog beside the categories of its language. A category has the index of
// its least two numbers, so that what is said of these two is true: of one that has two the numbers
// are returned.
pub(crate) fn lay(
    laid: &mut Laid,
    alloc: Global,
    indices: &Indices,
    rules: &PluralRules<'_>,
) -> Result<Option<Clash>, AllocError> {
    let mut tried = Vec::new(alloc);
    let clash = match push_tried(&mut tried, indices, rules) {
        Ok(()) => lay_tried(laid, alloc, indices, rules, tried.as_slice()),
        Err(error) => Err(error),
    };
    drop(tried);
    clash
}

// Appends the category of each number that is tried.
fn push_tried(
    tried: &mut Vec<Tried>,
    indices: &Indices,
    rules: &PluralRules<'_>,
) -> Result<(), AllocError> {
    for number in indices.tried.iter() {
        let number = *number;
        let category = rules.category_for(PluralOperands::from(number.number));
        push(tried, Tried { number, category })?;
    }
    Ok(())
}

// Lays the indices of numbers beside their categories.
fn lay_tried(
    laid: &mut Laid,
    alloc: Global,
    indices: &Indices,
    rules: &PluralRules<'_>,
    tried: &[Tried],
) -> Result<Option<Clash>, AllocError> {
    let own = own_of(indices, tried);
    let mut groups = Vec::new(alloc);
    let clash = match push_groups(&mut groups, &mut laid.unused, rules, tried, own) {
        Ok(()) => lay_groups(laid, indices, tried, own, groups.as_slice()),
        Err(error) => Err(error),
    };
    drop(groups);
    clash
}

// Appends the categories that numbers have, and those that none has.
fn push_groups(
    groups: &mut Vec<Group>,
    unused: &mut Vec<PluralCategory>,
    rules: &PluralRules<'_>,
    tried: &[Tried],
    own: Own,
) -> Result<(), AllocError> {
    for category in rules.categories() {
        let group = group_of(category, tried, own);
        if group.first.is_none() {
            push(unused, category)?;
        } else {
            push(groups, group)?;
        }
    }
    Ok(())
}

// Lays the indices of numbers beside these categories.
fn lay_groups(
    laid: &mut Laid,
    indices: &Indices,
    tried: &[Tried],
    own: Own,
    groups: &[Group],
) -> Result<Option<Clash>, AllocError> {
    let clash = clash_of(groups);
    if clash.is_none() {
        push_own(&mut laid.forms, indices, own)?;
        push_forms(&mut laid.forms, groups)?;
        push_differing(&mut laid.differing, indices, tried, own, groups)?;
    }
    Ok(clash)
}

// Whether exactly 0 and exactly 1 have forms of their own: first those whose index no other number
// has, as that of exactly 1 in some Ukrainian catalogs, then those that have another index than the
// rest of their category.
fn own_of(indices: &Indices, tried: &[Tried]) -> Own {
    let mut own = Own {
        zero: false,
        one: false,
    };
    own.zero = is_alone(indices, tried, own, 0);
    own.one = is_alone(indices, tried, own, 1);
    own.zero = own.zero || differs(tried, own, 0);
    own.one = own.one || differs(tried, own, 1);
    own
}

// What is tried of a number.
fn tried_at(tried: &[Tried], number: u64) -> Option<Tried> {
    for it in tried {
        if it.number.number == number {
            return Some(*it);
        }
    }
    None
}

// Whether the index of a number is that of no other one, and its category has others.
fn is_alone(indices: &Indices, tried: &[Tried], own: Own, number: u64) -> bool {
    let Some(found) = tried_at(tried, number) else {
        return false;
    };
    if indices.times_of(found.number.index) != 1 {
        return false;
    }
    for it in tried {
        let other = it.number.number;
        if it.category == found.category && other != number && !own.has(other) {
            return true;
        }
    }
    false
}

// Whether a number has another index than the least number of its category from 2 on.
fn differs(tried: &[Tried], own: Own, number: u64) -> bool {
    let Some(found) = tried_at(tried, number) else {
        return false;
    };
    if own.has(number) {
        return false;
    }
    for it in tried {
        if it.category == found.category && it.number.number > 1 {
            return it.number.index != found.number.index;
        }
    }
    false
}

// The numbers of a category.
fn group_of(category: PluralCategory, tried: &[Tried], own: Own) -> Group {
    let mut group = Group {
        category,
        first: None,
        second: None,
        size: 0,
    };
    for it in tried {
        if it.category != category || own.has(it.number.number) {
            continue;
        }
        if group.first.is_none() {
            group.first = Some(it.number);
        } else if group.second.is_none() {
            group.second = Some(it.number);
        }
        group.size = group.size.saturating_add(1);
    }
    group
}

// The first category whose least two numbers have two indices.
fn clash_of(groups: &[Group]) -> Option<Clash> {
    for group in groups {
        if let (Some(first), Some(second)) = (group.first, group.second)
            && first.index != second.index
        {
            return Some(Clash {
                category: group.category,
                first,
                second,
            });
        }
    }
    None
}

// Appends the forms of exactly 0 and 1.
fn push_own(forms: &mut Vec<FormIndex>, indices: &Indices, own: Own) -> Result<(), AllocError> {
    if own.zero
        && let Some(index) = indices.index_of(0)
    {
        push(forms, own_form(Form::ExplicitZero, index))?;
    }
    if own.one
        && let Some(index) = indices.index_of(1)
    {
        push(forms, own_form(Form::ExplicitOne, index))?;
    }
    Ok(())
}

// Appends the forms of categories.
fn push_forms(forms: &mut Vec<FormIndex>, groups: &[Group]) -> Result<(), AllocError> {
    for (place, group) in groups.iter().enumerate() {
        if let Some(first) = group.first {
            let form = FormIndex {
                form: Form::Category(group.category),
                index: first.index,
                is_second: has_larger(groups, place, group),
                has_several: group.second.is_some(),
            };
            push(forms, form)?;
        }
    }
    Ok(())
}

// The form of exactly one number.
fn own_form(form: Form, index: u64) -> FormIndex {
    FormIndex {
        form,
        index,
        is_second: false,
        has_several: false,
    }
}

// Appends the numbers for which the indices and the categories differ, in their order.
fn push_differing(
    differing: &mut Vec<u64>,
    indices: &Indices,
    tried: &[Tried],
    own: Own,
    groups: &[Group],
) -> Result<(), AllocError> {
    for it in tried {
        if differs_from_groups(it, indices, own, groups) {
            push(differing, it.number.number)?;
        }
    }
    Ok(())
}

// Whether the index and the category of a number differ.
fn differs_from_groups(tried: &Tried, indices: &Indices, own: Own, groups: &[Group]) -> bool {
    let number = tried.number;
    if own.has(number.number) {
        return indices.times_of(number.index) > 1;
    }
    number.number < TRIED_BELOW && (has_other_index(tried, groups) || is_told_apart(tried, groups))
}

// Whether a number has another index than its category.
fn has_other_index(tried: &Tried, groups: &[Group]) -> bool {
    for it in groups {
        if it.category == tried.category && index_of(it) != Some(tried.number.index) {
            return true;
        }
    }
    false
}

// The index of a category.
fn index_of(group: &Group) -> Option<u64> {
    match group.first {
        Some(first) => Some(first.index),
        None => None,
    }
}

// Whether a number is of a category that has the index of a larger one.
fn is_told_apart(tried: &Tried, groups: &[Group]) -> bool {
    for (place, group) in groups.iter().enumerate() {
        if group.category == tried.category {
            return has_larger(groups, place, group);
        }
    }
    false
}

// Whether a category of the same index has more numbers, or as many and stands behind.
fn has_larger(groups: &[Group], place: usize, group: &Group) -> bool {
    for (other, it) in groups.iter().enumerate() {
        let is_larger = it.size > group.size || it.size == group.size && other > place;
        if other != place && is_larger && begins_below(it) && index_of(it) == index_of(group) {
            return true;
        }
    }
    false
}

// Whether a category has a number below the limit.
fn begins_below(group: &Group) -> bool {
    match group.first {
        Some(first) => first.number < TRIED_BELOW,
        None => false,
    }
}

//! One walk over the whole numbers for the least of each category.

ghost use Rattle.std.specs.Prelude.{◌≡◌, ◌≤◌, ◌+◌, ◌%◌, slice_index, IsFalse, IsTrue};
ghost use Rattle.plural_base.specs.CategoryTables.{IsTableOf};
ghost use Rattle.number_categories.specs.Inner.SoughtNumbers.{AreFound, AreSeenBelow};
ghost use Rattle.number_categories.specs.Inner.ToldRemainders.{AreMarked, AreRunsFrom, AreRunsOf};

use crate::least_numbers::LeastNumbers;
use crate::sought::Sought;
use plural_base::{AskedRules, CategoryTable, PluralRules, PreparedRules};

/// The whole numbers that are looked at are those below this one.
pub const WHOLE_LIMIT: u16 = 10_000;

// If a table tells 100 numbers from this one on, it tells all.
const TOLD: u16 = 128;

// Two numbers of each remainder by 100.
const TWICE: u16 = 200;

// The numbers that are sought.
pub(crate) fn find(rules: &PluralRules<'_>, sought: Sought) -> LeastNumbers
    ensures { AreFound rules.now sought result }
{
    let mut seen = LeastNumbers::none();
    if sought.start >= WHOLE_LIMIT {
        return seen;
    }
    let mut asked = AskedRules::of(rules.as_borrowed());
    see_all(&mut asked, sought, &mut seen);
    drop(asked);
    seen
}

// Sees the numbers from the start on, until all that is sought is found or no further number tells
// more.
fn see_all(asked: &mut AskedRules<'_>, sought: Sought, seen: &mut LeastNumbers)
    requires start { sought.start ≤ WHOLE_LIMIT }
    requires seen { AreSeenBelow asked.old sought.start sought.start seen.old }
    ensures { AreFound asked.old sought seen.new }
{
    let twice = WHOLE_LIMIT.min(TOLD.max(sought.start) + TWICE);
    if see_each(asked, &[], sought.start, twice, sought, seen) {
        return;
    }
    let bytes = table_of(asked);
    let Some(table) = CategoryTable::from_bytes(&bytes) else {
        return;
    };
    let told = told_numbers(&table);
    if told.contains(&false) {
        see_each(asked, &runs_of(&told), twice, WHOLE_LIMIT, sought, seen);
    }
}

// The bytes of the rules' tables, which are made if they aren't there.
fn table_of(asked: &AskedRules<'_>) -> [u8; 236]
    ensures { IsTableOf asked.now result }
{
    match asked.tables() {
        Some(tables) => tables.to_table(),
        None => table_made(asked.rules()),
    }
}

// The bytes of tables that are made for rules.
fn table_made(rules: &PluralRules<'_>) -> [u8; 236]
    ensures { IsTableOf rules.now result }
{
    let prepared = PreparedRules::from_rules(rules.as_borrowed());
    let table = prepared.to_table();
    drop(prepared);
    table
}

// Sees each number from a start and before an end, but runs of numbers that are told, until all that
// is sought is found. Whether it is. A further number of the same category is passed over once that
// has two.
fn see_each(
    asked: &mut AskedRules<'_>,
    runs: &[u8],
    start: u16,
    end: u16,
    sought: Sought,
    seen: &mut LeastNumbers,
) -> bool
    requires runs { AreRunsFrom asked.old sought.start start runs.now }
    requires seen { AreSeenBelow asked.old sought.start start seen.old }
    requires from { sought.start ≤ start }
    requires order { start ≤ end }
    requires end { end ≤ WHOLE_LIMIT }
    ensures asked { asked.new ≡ asked.old }
    ensures found { IsTrue result → AreFound asked.old sought seen.new }
    ensures seen { IsFalse result → AreSeenBelow asked.old sought.start end seen.new }
{
    let mut common = None;
    let mut number = start;
    while number < end {
        let run = run_from(runs, number);
        if run > 0 {
            number = end.min(number + u16::from(run));
            continue;
        }
        let here = number;
        number += 1;
        asked.prepare(u64::from(here - sought.start));
        let category = asked.category_for_integer(u64::from(here));
        if common == Some(category) {
            continue;
        }
        if !seen.add(category, here) {
            common = Some(category);
            continue;
        }
        if seen.are_enough(sought) {
            return true;
        }
    }
    false
}

// How many numbers from this one on are told in a run.
#[inline]
fn run_from(runs: &[u8], number: u16) -> u8
    requires { number ≤ WHOLE_LIMIT }
    ensures { result ≡ slice_index runs.now ((number + 72) % 100) }
{
    if runs.is_empty() {
        return 0;
    }
    match runs.get(usize::from((number + 72) % 100)) {
        Some(run) => *run,
        None => 0,
    }
}

// How many of 100 numbers are told in a run, from each on.
fn runs_of(told: &[bool; 100]) -> [u8; 100]
    ensures { AreRunsOf told.now result }
{
    let mut runs = [0u8; 100];
    let mut run: u8 = 0;
    let mut place: usize = 100;
    while place > 0 {
        place -= 1;
        run = if told[place] { run + 1 } else { 0 };
        runs[place] = run;
    }
    runs
}

// Which of 100 numbers a table tells. Each has the category of all later numbers with its remainder
// by 100.
fn told_numbers(table: &CategoryTable<'_>) -> [bool; 100]
    ensures { AreMarked table.now result }
{
    let mut told = [false; 100];
    for place in 0..100usize {
        told[place] = table
            .category_for_integer(u64::from(TOLD) + place as u64)
            .is_some();
    }
    told
}

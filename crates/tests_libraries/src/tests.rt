//! Writers that fail, calls that take no memory, traits and paths at concrete types, tables of drawn
//! rules, and the examples of the pages: a file for each crate and subject.

mod assertion;
mod fixed_decimal_examples;
mod icu_plurals_closures;
mod icu_plurals_examples;
mod icu_plurals_packing;
mod icu_plurals_paths;
mod packed_list_lists;
mod plural_base_ranges;
mod plural_base_rules;
mod plural_checker_reports;
mod plural_message_messages;
mod plural_reference_examples;
mod plural_reference_printing;
mod plural_reference_rules;
mod plural_reference_trees;
mod plural_runtime_examples;
mod plural_runtime_rules;

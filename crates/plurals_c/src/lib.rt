//! Plural rules for C: the exports of the static library, each of which calls the function of
//! `plural_exports` that has its name without `plurals_`.
#![tactic(auto)]

mod catalogs;
mod integers;
mod numbers;
mod patterns;
mod rules;
mod texts;

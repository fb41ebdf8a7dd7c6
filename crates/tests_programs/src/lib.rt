//! Tests of what the programs do. They are apart so that no library is proved again for them.
#![tactic(auto)]

#[cfg(test)]
mod tests;

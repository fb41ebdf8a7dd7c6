//! Tests of the libraries that no row of data can say. They are apart so that no library is proved
//! again for them.
#![tactic(auto)]

#[cfg(test)]
mod tests;

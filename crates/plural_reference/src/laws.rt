//! Laws on the definitions and the calls of this crate, by subject: each is the contract of a
//! function.

pub mod exactness;
pub mod printing;
pub mod reading;

pub use plural_operands::laws as operands;

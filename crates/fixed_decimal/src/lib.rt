//! Written decimal numbers: their texts, their digits by place, and the shift by a power of ten.
#![tactic(auto)]

mod compact;
mod decimal;
mod digits;
mod error;
mod exponent;
pub mod laws;
mod plain;
mod point;
mod rounding;
mod shown;
mod sign;
mod span;
mod unsigned;

pub use compact::CompactDecimal;
pub use decimal::Decimal;
pub use error::DecimalError;
pub use plain::PlainNumber;
pub use rounding::RoundingMode;
pub use sign::Sign;
pub use unsigned::UnsignedDecimal;

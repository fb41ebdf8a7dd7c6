//! Why there is no report.

use thiserror::Error;

/// Why there is no report.
#[derive(Clone, Copy, Debug, Error, PartialEq, Eq)]
pub enum ReportError {
    /// The writer failed; it took a beginning of the report.
    #[error("cannot write output")]
    Write,
    /// Memory ran out. Nothing was written.
    #[error("out of memory")]
    Memory,
}

//! The statuses that the program ends with.

/// All was done.
pub const DONE: u8 = 0;

/// The input was refused, or a read or a write failed.
pub const FAILED: u8 = 1;

/// The command line is not understood.
pub const USAGE_FAULT: u8 = 2;

/// An allocation failed.
pub const NO_MEMORY: u8 = 3;

/// The audit of a job found a fault.
pub const AUDIT_FAULT: u8 = 4;

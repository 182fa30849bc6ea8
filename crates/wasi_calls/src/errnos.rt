//! Error numbers of WASI preview1.

/// It succeeded.
pub const SUCCESS: u32 = 0;

/// `badf`: no such file descriptor, or none that can be used so.
pub const BAD_FILE_DESCRIPTOR: u32 = 8;

/// `fault`: an address leaves the memory.
pub const FAULT: u32 = 21;

/// `fbig`: more bytes than there may be.
pub const TOO_LARGE: u32 = 22;

/// `inval`: an argument is out of its range.
pub const INVALID_ARGUMENT: u32 = 28;

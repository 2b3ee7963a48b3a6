//! The limits of a project.

/// The greatest number of bytes of a file: 1 MiB.
pub const FILE_LIMIT: usize = 1_048_576;

/// The greatest number of live files.
pub const FILES_LIMIT: usize = 4096;

/// The greatest number of bytes of all live texts: 32 MiB.
pub const TEXT_LIMIT: u64 = 33_554_432;

/// The greatest number of callables of all modules.
pub const CALLABLES_LIMIT: u32 = 65_535;

/// The greatest number of edits that a journal keeps.
pub const EDITS_LIMIT: u32 = 65_536;

/// The greatest number of bytes of all texts that a journal keeps: 64 MiB.
pub const KEPT_LIMIT: u64 = 67_108_864;

//! The limit of a file (this project's rule). The definitions read it too.

/// The most bytes that a file may have.
pub const MAX_FILE: usize = 8_388_608;

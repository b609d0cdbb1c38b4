//! How large things may be. Nothing else in the code knows these numbers.

/// How many steps a sheet may have.
pub const LIMIT: usize = 16;

/// How many columns there are, numbered from 0: as many as a set of them has room for.
pub const COLUMNS: usize = bits::WIDTH;

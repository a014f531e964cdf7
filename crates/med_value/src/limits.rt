//! How many there may be of each thing, and how long texts may be.

/// How many sessions there are: their numbers go from 1 to this one.
pub const SESSION_COUNT: usize = 256;

/// The most bytes that a request line has before its LF, the CR counted.
pub const LINE_LIMIT: usize = 1_048_576;

/// The most bytes of a name.
pub const NAME_LIMIT: usize = 63;

/// The greatest height of an expression, and the most tokens that can deepen one of a text that is no statement.
pub const HEIGHT_LIMIT: u32 = 64;

/// The most entries that FROM may have.
pub const ENTRY_LIMIT: usize = 8;

/// The most cores that UNION ALL may join.
pub const CORE_LIMIT: usize = 8;

/// The most rows that a query groups: 2^62, so that no count and no sum of 64-bit numbers passes 128 bits.
pub const GROUP_LIMIT: usize = 1 << 62;

/// The most cursors that a session may have open.
pub const CURSOR_LIMIT: usize = 16;

/// The most wrappers.
pub const WRAPPER_LIMIT: usize = 16;

/// The most servers.
pub const SERVER_LIMIT: usize = 64;

/// The most foreign tables.
pub const TABLE_LIMIT: usize = 256;

/// The most user mappings.
pub const MAPPING_LIMIT: usize = 1024;

/// The most columns of a foreign table.
pub const COLUMN_LIMIT: usize = 64;

/// The most sources that are ever added to an engine, dropped ones counted.
pub const SOURCE_LIMIT: usize = 64;

/// The most rows of a table of a list, a file or a database.
pub const ROW_LIMIT: usize = 1_000_000;

/// The most bytes of a file.
pub const BYTE_LIMIT: usize = 67_108_864;

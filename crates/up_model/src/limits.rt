/// The greatest graph file, in bytes.
pub const MAX_GRAPH: usize = 1_048_576;

/// The most pipes of a graph.
pub const MAX_PIPES: usize = 256;

/// The longest path, in bytes.
pub const MAX_PATH: usize = 4_096;

/// The greatest limit of a source, and the one that it has where its graph names none, in bytes: 2^40.
pub const MAX_LIMIT: u64 = 1_099_511_627_776;

/// The greatest packet, in bytes, and the most that `skip` takes off one.
pub const MAX_PACKET: u32 = 1_048_576;

/// The greatest block of a raw source, in bytes.
pub const MAX_BLOCK: u32 = 1_048_576;

/// The greatest packet identifier (PID) of a transport stream packet.
pub const MAX_PID: u16 = 8_191;

/// The most attributes of a packet.
pub const MAX_ATTRS: usize = 64;

/// The greatest text or opaque value of an attribute, in bytes.
pub const MAX_VALUE: usize = 4_096;

/// The block of a raw source whose graph names none, in bytes.
pub const DEFAULT_BLOCK: u32 = 4_096;

/// The length of a lane whose graph names none, in items.
pub const DEFAULT_QUEUE: u16 = 64;

/// The longest lane, in items.
pub const MAX_QUEUE: u16 = 4_096;

/// The most different workers of a graph.
pub const MAX_WORKERS: usize = 16;

/// The most bytes that a file of a block may have, which are 64 MiB.
pub const FILE_LIMIT: usize = 67_108_864;

// The limit of a case file.

// A case file has at most so many bytes.
pub const MOST_BYTES: usize = 16384;

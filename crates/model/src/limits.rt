// The limits of the planner, in one place.

// A case has at most so many kinds.
pub const MOST_KINDS: usize = 32;

// A kind's size is at most so many blocks.
pub const MOST_SIZE: u64 = 4095;

// A kind's price is at most this.
pub const MOST_PRICE: u64 = 1000;

// A goal's top is at most this.
pub const MOST_TOTAL: u64 = 4095;

// A list goal has at most so many totals.
pub const MOST_LISTED: usize = 16;

// A stride's modulus is at most this.
pub const MOST_MODULUS: u64 = 4096;

// A count is below this: a set has so many bits.
pub const COUNTS: u64 = 64;

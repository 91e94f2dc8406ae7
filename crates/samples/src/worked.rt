// The worked cases.
use crate::Sample;

// Four kinds of sizes 2, 3, 4, 5, each at most once.
pub const FOUR_KINDS: [Sample; 4] = [
    Sample {
        size: 2,
        price: 20,
        allowed: 0b11,
    },
    Sample {
        size: 3,
        price: 25,
        allowed: 0b11,
    },
    Sample {
        size: 4,
        price: 35,
        allowed: 0b11,
    },
    Sample {
        size: 5,
        price: 40,
        allowed: 0b11,
    },
];

// Four kinds of sizes 27, 37, 45, 53, each at most three times.
pub const LARGE_KINDS: [Sample; 4] = [
    Sample {
        size: 27,
        price: 0,
        allowed: 0b1111,
    },
    Sample {
        size: 37,
        price: 0,
        allowed: 0b1111,
    },
    Sample {
        size: 45,
        price: 0,
        allowed: 0b1111,
    },
    Sample {
        size: 53,
        price: 0,
        allowed: 0b1111,
    },
];

// A kind that takes no room, and counts with gaps up to 63.
pub const GAPS: [Sample; 3] = [
    Sample {
        size: 0,
        price: 1,
        allowed: 1 | 1 << 63,
    },
    Sample {
        size: 1,
        price: 2,
        allowed: 0b100101,
    },
    Sample {
        size: 3,
        price: 3,
        allowed: 0b10010,
    },
];

// One kind with every count, the largest of which is at the largest top.
pub const EVERY_COUNT: [Sample; 1] = [Sample {
    size: 65,
    price: 0,
    allowed: u64::MAX,
}];

// Six kinds of sizes 1 to 6, each at most three times: 4096 lists of counts.
pub const SIX_KINDS: [Sample; 6] = [
    Sample {
        size: 1,
        price: 0,
        allowed: 0b1111,
    },
    Sample {
        size: 2,
        price: 0,
        allowed: 0b1111,
    },
    Sample {
        size: 3,
        price: 0,
        allowed: 0b1111,
    },
    Sample {
        size: 4,
        price: 0,
        allowed: 0b1111,
    },
    Sample {
        size: 5,
        price: 0,
        allowed: 0b1111,
    },
    Sample {
        size: 6,
        price: 0,
        allowed: 0b1111,
    },
];

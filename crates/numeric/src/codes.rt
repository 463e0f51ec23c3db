// The document's numbers that carry meaning, each once.

// The signed error is held to -MOST..MOST.
pub const MOST: u32 = 1000000;

// The patterns of an f32: that of minus zero, that of the infinite, and that of the least normal number.
pub const MINUS_ZERO: u32 = 2147483648;

pub const INFINITE: u32 = 2139095040;

pub const NORMAL: u32 = 8388608;

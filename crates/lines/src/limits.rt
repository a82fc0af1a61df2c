// The most bytes that a line has, with its end.
pub const LONGEST: usize = 40;

// The largest number that a line holds.
pub const LARGEST: u32 = 999_999;

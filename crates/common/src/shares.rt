// Shares: document 01's opening section.

// 65,536: a share is a whole number over it.
pub const ONE: u64 = 65536;

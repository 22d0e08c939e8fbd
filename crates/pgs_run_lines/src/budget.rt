/// The budget of a run of a program: the most bytes that it reads of its input, 2^40.
pub const BUDGET: u64 = 1 << 40;

/// How many plans are kept at once, at most.
pub const MAX_PLANS: usize = 64;

// The number of what is not refused; a refusal's is its reason's.
pub const ACCEPTED: u64 = 0;

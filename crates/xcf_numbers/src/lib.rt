// The numbers of the format and of this library, each by one name.
#![tactic(auto)]

pub mod base;
pub mod fault;
pub mod flag;
pub mod kind;
pub mod limit;
pub mod precision;
pub mod property_type;
pub mod reason;
pub mod refusal;
pub mod version;

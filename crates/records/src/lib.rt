// A unit's record and what the units share, as numbers of four bytes: what a host keeps between the calls.
#![tactic(auto)]

mod records;
mod shares;

pub use records::{UnitRecord, record_of, record_right, transport_in};
pub use shares::{coupler_in, put_coupler};

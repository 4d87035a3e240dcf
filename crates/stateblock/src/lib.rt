// The state as a block of 128 bytes: what a host keeps between the calls.
#![tactic(auto)]

mod encoding;

pub use encoding::{STATE, block_right, close, session_in};

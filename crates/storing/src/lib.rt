// Storing a plan: the reel's blocks, then the data, and the message over it.
#![tactic(auto)]

mod stores;

pub use stores::store;

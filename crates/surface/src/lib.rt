// The theorems of the exported calls, over the bytes that a host holds. No code: the calls' contracts (`Gives`, `Mounts` and `Reads` in
// crates/ts11/src/calls.rt, `Finds` in finds.rt) say that each call gives what its definition says, and the theorems are about those definitions.
//
//   a session's block is read as that session                     block_back, block_is      crates/stateblock/proofs/Blocks.antt
//   a block's bytes are those of the session it is read as        block_own, same_block
//   each exported call is the session's call of its name          given_step, given_register
//                                                                                           proofs/Names.antt
//   one exported call is one call of the session, from any block  runs_as                   proofs/Runs.antt
//   and so is a step back                                         back_as                   proofs/Backs.antt
//   the step back after a step gives back the bytes before it     undone_bytes              proofs/Undone.antt
//   and so do any number of steps, all undone                     round_bytes               proofs/Rounds.antt
//   a call that returns another number than 0 changed nothing     refused_nothing           proofs/Refused.antt
//   and so did one that took no step                              call_nothing, back_nothing
//   a contract permits one outcome                                gives_unique, tells_unique, reads_unique, mounts_unique
//                                                                                           proofs/Unique.antt
//   and so does a look-up's                                       finds_unique              proofs/Founds.antt
//   every exported advance is refused, idle or a step, each       host_comes                proofs/Advances.antt
//   under its condition, and a step obeys the TS11's rules
//   a mount refused with 7 names the first block at fault, and    host_mount_names
//   tells what is wrong with it
//   a mount answered 0 begins a session                           mounted_host              proofs/Mounted.antt
//   a host's calls are a session of the model                     host_ran                  proofs/Hosts.antt
//   going back k gives the bytes before the earliest of the k     host_stood, host_stands   proofs/Stands.antt
//   what holds of every session holds of those bytes; the used    host_good, host_journal, host_entries_long, host_room, same_bytes
//   part of the table is the one worked out afresh from the reel                            proofs/Always.antt
//   a step back leads where the session's leads                   host_back, host_none
//   from a mount on a look-up returns 0, and tells of a place     host_file, host_block     proofs/Founds.antt
//   exactly where file f begins, or block k's object stands
//
// specs/Hosting.antt says what a host holds and what its calls are; specs/Following.antt what it is for a host's log to follow a session's.
#![tactic(auto)]

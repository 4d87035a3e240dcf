// The theorems over any sequence of the journal's calls, from a mount on. No code: the calls' contracts (`Leaves` in
// crates/journal/src/calls.rt) say that each call does what its definition says, and the theorems are about those definitions.
//
//   demand 1   a refused call changes nothing                               stays          proofs/Taken.antt
//              a contract permits one outcome                               leaves_unique  proofs/Unique.antt
//              a step back that is done leaves a world that 1 to 4 pass     back_checked_lem   proofs/Backs.antt
//   demand 2   every call of advance is refused, idle or a step, each under
//              its condition, and a step obeys the TS11's rules             advance_comes  proofs/Advances.antt, specs/Advancing.antt, Rules.antt
//              a mount refused with 7 names the first block at fault,
//              and tells what is wrong with it                              mount_names
//   demand 3   a mount begins such a session                                mounted        proofs/Mounting.antt
//              the reel is well formed, the position 0 or after an object   always_good    proofs/Calls.antt
//              the used part of the table is the table worked out afresh
//              from the reel, after a mount and after every call            always_good    (`indexed` of specs/Good.antt)
//              one entry for each step that stands, and it is that step's   entry_each
//              the journal is those entries and nothing else                stepped_world, does_that
//              each is 128 bytes and those that its step stored, and eight
//              for each object written                                      entries_long   proofs/Lengths.antt
//              a step back gives the world before the step                  step_undone    proofs/Taken.antt
//              going back k gives the moment before the earliest of the k   back_stood     proofs/Calls.antt
//              the call step back does that                                 back_does, back_none
//              refused for room exactly when the entry doesn't fit, and
//              before that with 11 exactly when the table is too small      room_exactly   proofs/Room.antt
//              what was undone never was                                    never_was      proofs/Calls.antt
//
// A session is a log (specs/Session.antt, for any machine with a law of undo); specs/Calling.antt makes the calls that machine.
#![tactic(auto)]

// Supply lost in the middle of a push program (document 02, request (e)): theorems alone, about the machine of `plain_machine` and the call of
// `take_over`. One statement over any machine (specs/Cuts), proved of ours for every list of cuts (proofs/Repairs), on laws over any gap and ranks
// (proofs/Cuts); which calls write the same target again (proofs/Again), machines that the statement refutes (proofs/Refuted), worked cases (proofs/Bench).
#![tactic(auto)]

// The rivals and demand 3 (document 01, "The rivals of demand 3"): theorems alone, about the machine of `plain_machine`. Demand 3 is one statement
// (specs/Rivals), proved of that machine (proofs/Demand3), with what it determines of a machine (proofs/Determined), machines that it refutes
// (proofs/Refuted) and what keeps it from being empty (proofs/Valid). Besides: the cost as the rise of the top level (specs/Rise, proofs/CostRise,
// proofs/WriteRise), the starred cases as one table (specs/Starred, proofs/Starred), the printed example's calls (proofs/Bench), worked cases
// of shared writes (proofs/SharedCases).
#![tactic(auto)]

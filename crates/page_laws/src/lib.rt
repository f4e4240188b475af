// What is true of pages of groups (document 02, request (d)): theorems alone, about the definitions of `page` and `page_store`. Each group of a page goes
// by a list of calls of its own, and demand 3 holds of it (specs/PageLists, proofs/PageDemand3); what that determines of a page store
// (proofs/Determined), page stores that fail it (proofs/Refuted), and that it speaks of something (proofs/Valid). What is stored is read (proofs/Holds);
// worked cases (proofs/Bench).
#![tactic(auto)]

// What is true of the numbers of windows (document 02, request (a)): theorems alone, about the definitions of `window`, over any width. Numbers and
// orders of a width determine each other, and so do the numbers and the orders of windows; every order and every number below the factorial of the
// width is had (proofs/Numbers, over the factorial number system of proofs/Digits); among different levels comparisons alone decide
// (proofs/Compared). A ring turned by steps has its numbers turned by as many (proofs/Turning), and a run gives the same numbers handed in as its record
// or as the list of its levels (proofs/Handed). Besides: the example of SD 004 and other worked cases (proofs/Bench).
#![tactic(auto)]

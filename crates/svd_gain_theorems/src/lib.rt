// `svd` of a matrix times a power of two: the laws of each operation, the theorem, and the theorem's hypotheses at numbers. There is no code here: specs/ has all of it.
#![tactic(auto)]

// What holds of every call of `symmetric_eigen`, by document 000's own loops, and that a run in steps ends as the one call does. There is no code here: specs/ has the theorems.
#![tactic(auto)]

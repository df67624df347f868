// What holds of every call of `svd`, by document 000's own sweeps. There is no code here: specs/ has the relations and the theorems.
#![tactic(auto)]

// What is so of the entries of a covariance matrix, and of the sums of bands. There is no code here: specs/ has the relations and the theorems.
#![tactic(auto)]

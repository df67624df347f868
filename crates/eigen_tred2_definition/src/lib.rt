// What `tred2` is, and that it reads nothing above the diagonal. There is no code here: specs/ has the definitions and the laws.
#![tactic(auto)]

// What holds of the calls on transform blocks. There is no code here: specs/ has the theorems.
#![tactic(auto)]

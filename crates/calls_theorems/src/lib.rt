// What holds of calls that meet their promises. There is no code here: specs/ has the theorems.
#![tactic(auto)]

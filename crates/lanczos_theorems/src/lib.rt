// What holds of every call of `lanczos`. There is no code here: specs/ has the theorems.
#![tactic(auto)]

// What each call of the store does, that it answers as a plain map, and that neither owner's calls show in the other's answers. There is no code here: specs/ has the definitions and the theorems.
#![tactic(auto)]

// Every refusal of assembling has a number of the table: laws on the rules alone, in proofs/. Nothing runs here.
#![tactic(auto)]

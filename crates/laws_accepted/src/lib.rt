// What assembling accepts is a good object: laws on the rules alone, in proofs/. Nothing runs here.
#![tactic(auto)]

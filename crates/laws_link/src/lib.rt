// Linking any list of objects, in any order and any grouping: the words of that promise in specs/, on the rules' own link, and its laws in proofs/. Nothing runs here.
#![tactic(auto)]

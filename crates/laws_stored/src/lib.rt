// The stored form, both ways: the words of what is promised of it in specs/, on the rules' own storing and checking, and its laws in proofs/. Nothing runs here.
#![tactic(auto)]

// The page of promises, in proofs/Promises.antt: each final theorem, stated, with the proof that it cites. Nothing runs here.
#![tactic(auto)]

// The rules of document 01 as definitions, in specs/, and their laws, in proofs/. Nothing runs here: the other crates' contracts cite these definitions.
#![tactic(auto)]

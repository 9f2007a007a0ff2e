// Laws of the rules, in proofs/: of the walks over a source (where its statements are read, the lexer has only 12 to refuse, and what either walk refuses has one
// place) and of the two passes (pass two keeps step with pass one). Nothing runs here.
#![tactic(auto)]

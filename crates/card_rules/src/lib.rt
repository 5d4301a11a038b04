// The card of RULES as a reader sees it: definitions in specs/, what follows from them in proofs/. There is no code here.
#![tactic(auto)]

// What the public calls do to a card, one after the other. There is no code here.
#![tactic(auto)]

// What the calls on directories do to a card as a whole, and for which cause each is refused. There is no code here.
#![tactic(auto)]

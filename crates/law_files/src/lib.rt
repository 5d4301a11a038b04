// What a change of a file's length or bytes does to a card as a whole, and days of them. There is no code here; the definitions are those of the crates below.
#![tactic(auto)]

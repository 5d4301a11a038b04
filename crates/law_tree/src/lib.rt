// What one entry more, less or elsewhere does to the tree of directories. There is no code here.
#![tactic(auto)]

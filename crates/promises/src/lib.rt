// What is promised, and that it holds. There is no code here.
#![tactic(auto)]

// What is proved of the whole, in the words of docs/RULES.md: the theorems stand in specs/, each with its meaning
// in a sentence. There is no code here.
#![tactic(auto)]

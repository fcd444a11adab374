// The text of armoured files: what export writes and what import takes, and their laws. They stand apart from the
// code, so that both sides share them. There is no code here.
#![tactic(auto)]

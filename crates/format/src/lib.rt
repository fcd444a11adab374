// The container's bytes from its fields, as PROTOCOL.key and docs/RULES.md have them: definitions and
// laws only, in specs/ and proofs/.
#![tactic(auto)]

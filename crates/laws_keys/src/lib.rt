// The laws of keys: reading back, and inversion of a public key, a blob or a keypair that was read. They stand apart
// from the code, whose proofs do not use them, so that a check of the code does not pay for them. There is no code here.
#![tactic(auto)]

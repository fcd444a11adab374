// No code: a file of keys, and one edit of it after the other.
#![tactic(auto)]

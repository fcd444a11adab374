// Where the refusal of a field or of a key lies: within the part that was being read, or at its end. The laws stand in
// specs/; those of the header, the section and the whole read are in `laws_places`. There is no code here.
#![tactic(auto)]

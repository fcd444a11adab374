// Where a refusal's place lies: within the part that was being read, or at its end. The laws of header, section and whole
// read stand in specs/, over those of `laws_fields`; the claims over them are in `claims`. There is no code here.
#![tactic(auto)]

// The mission's demand 3, with document 01's book, as one claim about the driver's definitions
// (specs/Claim.antt). There is no code here: the code meets those definitions, call by call, in `driver`.
#![tactic(auto)]

// The mission's demand 3 over the C functions: what a renderer hands on are bytes (specs/HostClaim.antt). There is no
// code here: the C functions meet the definitions that it speaks of, call by call, in `host`.
#![tactic(auto)]

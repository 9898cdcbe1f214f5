// No code: every definition of a reading open at once, for what is computed.
#![tactic(auto)]

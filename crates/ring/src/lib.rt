// Commutative rings: definitions and laws, in specs/. No code.
#![tactic(auto)]

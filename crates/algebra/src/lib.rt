// Fields and polynomials over a field: definitions and laws, in specs/. No code.
#![tactic(auto)]

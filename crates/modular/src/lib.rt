// The numbers modulo a prime, and polynomials over them: definitions and laws, in specs/. No code.
#![tactic(auto)]

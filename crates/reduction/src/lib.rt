// Linear systems over K[x] by reduction of vectors with pivots: definitions and laws, in specs/. No code.
#![tactic(auto)]

// Systems and certificates as lists of 32-bit words: definitions and laws, in specs/. No code.
#![tactic(auto)]

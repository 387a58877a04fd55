// What the solver's areas mean in the terms of systems and certificates. Definitions and laws only: see specs/.
#![tactic(auto)]

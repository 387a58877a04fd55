// Why an accepted certificate tells the truth: definitions and laws, in specs/. No code.
#![tactic(auto)]

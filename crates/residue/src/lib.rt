// Numbers modulo a prime p: the test for primes, and the arithmetic of the numbers below p.
#![tactic(auto)]

pub mod modulus;
pub mod prime;

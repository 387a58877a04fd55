// The test for primes.
ghost use Rattle.std.specs.Prelude.{◌≡◌};
ghost use Rattle.modular.specs.Prime.{prime?};

// Tells whether p is prime. A number with no divisor from 2 up to its square root has none at all, so the division stops there.
#[tactic(auto, using(crate::specs::Primality::false_of_composite))]
pub fn is_prime(p: u16) -> bool
    ensures { result ≡ prime? p }
{
    let n = u32::from(p);
    1 < n && (2..n).take_while(|d| d * d <= n).all(|d| n % d != 0)
}

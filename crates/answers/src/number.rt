// A test on small numbers.
ghost use Rattle.std.specs.Prelude.{◌≡◌};
ghost use Rattle.words.specs.System.{one_to};

// Tells whether n is 1 to `most`.
pub fn one_to(most: u32, n: u32) -> bool
    ensures { result ≡ one_to most n }
{
    (1..=most).contains(&n)
}

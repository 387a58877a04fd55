// Arithmetic of the numbers below a prime p, with the reciprocal of p computed once.
ghost use Rattle.std.specs.Prelude.{◌≡◌, ◌+◌, ◌*◌, ◌%◌, ◌<◌, ◌≤◌};
ghost use Rattle.modular.specs.Prime.{Prime};
ghost use Rattle.modular.specs.Modulo.{modulo};
ghost use Rattle.modular.specs.LargestPrime.{largest_modulus};
ghost use Rattle.residue.specs.Reciprocal.{Reciprocal};
ghost use Rattle.residue.specs.Sum.{SmallSum};
ghost use Rattle.residue.specs.Barrett.{BarrettStep};

// A number of 32 bits is less than this.
pub const BOUND_32: u64 = 4294967296;

// A prime p of 16 bits, the shift by which 2 * 2^shift <= p < 4 * 2^shift, and 2^32 * 2^shift / p rounded down, with which a
// remainder by p takes multiplications and shifts only.
#[derive(Clone, Copy)]
pub struct Modulus {
    pub p: u64,
    pub shift: u32,
    pub reciprocal: u64,
    pub ghost valid: { Reciprocal p shift reciprocal },
}

impl Modulus {
    // Returns the modulus p, with its shift and reciprocal. `scale` is 2^shift.
    pub fn new(p: u64) -> Modulus
        requires { Prime p × (p ≤ largest_modulus) }
        ensures { result.p ≡ p }
    {
        let shift = p.ilog2() - 1;
        let scale: u64 = 1 << shift;
        Modulus {
            p,
            shift,
            reciprocal: BOUND_32 * scale / p,
        }
    }

    // Returns a + b modulo p.
    #[tactic(auto, unfolding(modular::specs::Modulo::modulo))]
    pub fn add(self, a: u64, b: u64) -> u64
        requires { (a < self.p) × (b < self.p) }
        ensures { result ≡ (modulo self.p).add a b }
    {
        self.wrap(a + b)
    }

    // Returns -a modulo p. What is not 0 needs no reduction, and a compiler makes the test a choice without a branch.
    #[tactic(auto, unfolding(modular::specs::Modulo::modulo))]
    pub fn neg(self, a: u64) -> u64
        requires { a < self.p }
        ensures { result ≡ (modulo self.p).neg a }
    {
        if a == 0 { 0 } else { self.p - a }
    }

    // Returns a - b modulo p.
    pub fn sub(self, a: u64, b: u64) -> u64
        requires { (a < self.p) × (b < self.p) }
        ensures { result ≡ (modulo self.p).add a ((modulo self.p).neg b) }
    {
        self.wrap(a + (self.p - b))
    }

    // Returns a b modulo p. By the reciprocal, which is faster than `%`.
    #[tactic(auto, unfolding(modular::specs::Modulo::modulo))]
    pub fn mul(self, a: u64, b: u64) -> u64
        requires { (a < self.p) × (b < self.p) }
        ensures { result ≡ (modulo self.p).mul a b }
    {
        self.reduce(a * b)
    }

    // Returns the inverse of a modulo p, by the descent of its definition: it is `factor` times the inverse of `rest` throughout.
    pub fn inverse(self, a: u64) -> u64
        requires { (0 < a) × (a < self.p) }
        ensures { result ≡ (modulo self.p).inverse a }
    {
        let p = self.p;
        let mut factor = 1;
        let mut rest = a;
        // no plainer as another loop: the descent ends by its value, and nothing is counted
        while 1 < rest {
            factor = self.mul(factor, p - p / rest);
            rest = p % rest;
        }
        factor
    }

    // Returns x modulo p, of a sum of products that was left unreduced.
    pub fn reduce(self, x: u64) -> u64
        requires { SmallSum self.p x }
        ensures { result ≡ x % self.p }
    {
        self.wrap(self.barrett_step(x))
    }

    // Returns x modulo p, for x below 2p: bit 32 of the sum is set where p is to be taken off. There is no branch in it, so that
    // loops over it become vector code.
    fn wrap(self, x: u64) -> u64
        requires { x < self.p + self.p }
        ensures { result ≡ x % self.p }
    {
        let p = self.p % BOUND_32;
        x - ((x + (BOUND_32 - p)) >> 32) % BOUND_32 * p
    }

    // Returns x less a multiple of p, which the reciprocal estimates. No factor has more than 32 bits: the remainders by 2^32 only
    // tell the compiler so, which then has a vector instruction for the product.
    fn barrett_step(self, x: u64) -> u64
        requires { SmallSum self.p x }
        ensures { BarrettStep self.p x result }
    {
        let quotient = ((x >> self.shift) % BOUND_32 * (self.reciprocal % BOUND_32)) >> 32;
        x - quotient % BOUND_32 * (self.p % BOUND_32)
    }
}

// `|` of eight words, which is 0 only where all of them are: one test for a row of them.
ghost use Rattle.std.specs.Prelude.{◌≡◌, ◌+◌, ◌≤◌, length};
ghost use Rattle.std.specs.Int.Bits.{bit_or};
ghost use Rattle.vector.specs.Or.{or_to};
ghost use Rattle.vector.specs.RowStored.{row_words};

// Returns h[a] | .. | h[a + 3].
fn or_of_four(h: &[u64], a: usize) -> u64
    requires { a + 4 ≤ length h.now }
    ensures { result ≡ or_to h.now a 3 }
{
    h[a] | h[a + 1] | h[a + 2] | h[a + 3]
}

// Returns h[a] | .. | h[a + 7], as four and four.
pub fn or_of_row(h: &[u64], a: usize) -> u64
    requires { a + row_words ≤ length h.now }
    ensures { result ≡ bit_or (or_to h.now a 3) (or_to h.now (a + 4) 3) }
{
    or_of_four(h, a) | or_of_four(h, a + 4)
}

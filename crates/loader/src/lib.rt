// Polynomials loaded from the words of a system or a certificate that was read, each into a slot of an area: a number of
// coefficients, then these, as the loops on words take them.
#![tactic(auto)]

pub mod width;

ghost use Rattle.std.specs.Prelude.{◌≡◌, ◌+◌, ◌-◌, ◌*◌, ◌≤◌, ◌<◌, length, get_or};
ghost use Rattle.words.specs.Limits.{office};
ghost use Rattle.words.specs.Word.{payload};
ghost use Rattle.words.specs.Starts.{start_place, first_entries, line_entries, HasEntries};
ghost use Rattle.vector.specs.Stored.{stored};
ghost use Rattle.polynomial.specs.Value.{polynomial_room, Represents};
ghost use Rattle.loader.specs.Widths.{system_width};
ghost use Rattle.loader.specs.Slot.{slot, InSlots, SlotFilled};
ghost use Rattle.loader.specs.Loaded.{PartLoaded};

use polynomial::Polynomial;
use read_frame::word::payload_of;
use residue::modulus::Modulus;
use vector::store_each;
use width::SYSTEM_WIDTH;

// Stores the payload of words[a + j] at area[d + j] for j below n.
pub fn copy_payloads(area: &mut [u64], d: usize, words: &[u32], a: usize, n: usize)
    requires { (d + n ≤ length area.old) × (a + n ≤ length words.now) }
    ensures { area.new ≡ stored (λ j. payload (get_or words.now (a + j) 0)) area.old d n }
{
    store_each(area, d, n, |j| payload_of(words[a + j]) as u64);
}

// Loads the polynomials from number `from` to before number `to`, of which the first starts at the place `at`, into the slots of
// `width` words from number `first` on. Returns the place behind them.
fn load_part(
    area: &mut [u64],
    width: usize,
    first: usize,
    words: &[u32],
    at: usize,
    from: usize,
    to: usize,
) -> usize
    requires has_entries { HasEntries (width - 1) to words.now × (0 < width) × (from ≤ to) × (at ≡ start_place words.now from) }
    requires room { (first + (to - from)) * width ≤ length area.old }
    ensures { PartLoaded width words.now first from to area.old area.new
        × (result ≡ start_place words.now to) }
{
    let mut place = at;
    for i in 0..to - from {
        let n = payload_of(words[place]) as usize + 1;
        copy_payloads(area, (first + i) * width, words, place, n);
        place += n;
    }
    place
}

// Steps over the polynomials from number `from` to before number `to`, of which the first starts at the place `at`. Returns the
// place behind them.
fn step_over(words: &[u32], at: usize, from: usize, to: usize) -> usize
    requires { HasEntries office.system_coefficients to words.now × (from ≤ to) × (at ≡ start_place words.now from) }
    ensures { result ≡ start_place words.now to }
{
    let mut place = at;
    for _ in from..to {
        place += payload_of(words[place]) as usize + 1;
    }
    place
}

// Loads the first `count` polynomials of `words`, each into its slot of `width` words.
pub fn load(area: &mut [u64], width: usize, words: &[u32], count: usize)
    requires { HasEntries (width - 1) count words.now × (0 < width) × (count * width ≤ length area.old) }
    ensures { InSlots width area.new (first_entries words.now count) }
{
    load_part(area, width, 0, words, 1, 0, count);
}

// Loads one line of a system, each polynomial into its slot: those of A, then those of right side `side`. The right sides before it
// are stepped over.
pub fn load_line(area: &mut [u64], words: &[u32], rows: usize, columns: usize, side: usize)
    requires { HasEntries office.system_coefficients (rows * columns + side * rows + rows) words.now
        × ((rows * columns + rows) * system_width ≤ length area.old) }
    ensures { InSlots system_width area.new (line_entries words.now rows columns side) }
{
    let matrix = rows * columns;
    let from = matrix + side * rows;
    let behind = load_part(area, SYSTEM_WIDTH, 0, words, 1, 0, matrix);
    let at = step_over(words, behind, matrix, from);
    load_part(area, SYSTEM_WIDTH, matrix, words, at, from, from + rows);
}

// Borrows the coefficients in slot k.
pub fn coefficients_in(area: &[u64], width: usize, k: usize) -> &[u64]
    requires { (k * width + width ≤ length area.now) × (get_or area.now (k * width) 0 < width) }
    ensures { result.now ≡ slot width area.now k }
{
    let start = k * width;
    let from = start + 1;
    let to = from + area[start] as usize;
    &area[from..to]
}

// Returns the polynomial in slot k.
pub fn polynomial_in(area: &[u64], width: usize, k: usize, modulus: Modulus) -> Polynomial
    requires { SlotFilled modulus.p width area.now k × (width ≤ polynomial_room + 1) }
    ensures { Represents modulus.p result (slot width area.now k) }
{
    let f = coefficients_in(area, width, k);
    Polynomial::from_words(f, 0, f.len(), modulus)
}

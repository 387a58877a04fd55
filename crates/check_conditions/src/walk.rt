// One walk down the columns of Z·A, all of them side by side (document 02, item 3). Of each column the remainder by w of its sum so
// far is carried from row to row. Row i adds Z_i·A_ij coefficient by coefficient of A_ij: x^k·Z_i modulo w, which is the same for
// all columns, times coefficient k. So no product is formed, and none is divided. Throughout, e is the degree of w. 31 was tried
// before, so w is monic and the inverse of its leading coefficient is 1; no promise here builds on that.
ghost use Rattle.std.specs.Prelude.{◌≡◌, not, ℕ, ◌+◌, ◌-◌, ◌*◌, ◌≤◌, ◌<◌, length, get_or};
ghost use Rattle.algebra.specs.Coefficients.{add, scale, leading, remainder};
ghost use Rattle.modular.specs.Bits.{most16};
ghost use Rattle.modular.specs.Modulo.{modulo};
ghost use Rattle.modular.specs.Canonical.{Canonical};
ghost use Rattle.modular.specs.Delay.{degree};
ghost use Rattle.words.specs.Limits.{office};
ghost use Rattle.vector.specs.Bound.{AtMost};
ghost use Rattle.vector.specs.Multiple.{sum_at};
ghost use Rattle.vector.specs.Reduced.{polynomial};
ghost use Rattle.vector.specs.Stored.{stored};
ghost use Rattle.polynomial_words.specs.Product.{sum_most};
ghost use Rattle.polynomial_words.specs.Window.{ReducedFrom};
ghost use Rattle.loader.specs.Slot.{slot};
ghost use Rattle.loader.specs.Widths.{system_width};
ghost use Rattle.truth.specs.Verdict.{zero?};
ghost use Rattle.check_conditions.specs.Held.{system_of, certifying_denominator_of, certifying_numerators_of};
ghost use Rattle.check_conditions.specs.Walk.{carried_width, carried_words, carried_in, window_words};
ghost use Rattle.check_conditions.specs.Walk.{CarriedSums, TakesRow, Carries};

use crate::areas::SolutionAreas;
use limits::Office;
use loader::coefficients_in;
use loader::width::{CERTIFICATE_WIDTH, SYSTEM_WIDTH};
use polynomial_words::{divide_words, multiply_by_x};
use residue::modulus::Modulus;
use vector::{add_scaled, clear, copy, find_leading, reduce_range};

// The most coefficients of a remainder by w: one fewer than w may have.
const REMAINDER_WIDTH: usize = Office::CERTIFICATE_COEFFICIENTS as usize - 1;

// The words of a remainder for each column.
pub const REMAINDERS: usize = Office::COLUMNS as usize * REMAINDER_WIDTH;

pub type Remainders = [u64; REMAINDERS];

// The places in front of Z_i modulo w, into which it slides: one for each coefficient of an entry. The last is for the
// multiplication by x behind the last coefficient, which nobody needs and which spares the loop a test.
const PLACES: usize = Office::COEFFICIENTS as usize;

const WINDOW: usize = PLACES + REMAINDER_WIDTH;

type Window = [u64; WINDOW];

// The most coefficients of Z_i.
const DIVIDEND: usize = Office::CERTIFICATE_COEFFICIENTS as usize;

// Stores z modulo w in a window that holds zeros, behind its first places. In between the window has the quotient, which is not
// kept.
fn store_remainder(window: &mut Window, z: &[u64], w: &[u64], inverse: u64, modulus: Modulus)
    requires bounds { (length window.old ≡ window_words) × AtMost 0 window.old }
    requires dividend { Canonical modulus.p z.now × (length z.now ≤ office.certificate_coefficients) }
    requires divisor { Canonical modulus.p w.now × (0 < length w.now) × (length w.now ≤ office.certificate_coefficients)
        × (inverse ≡ (modulo modulus.p).inverse (leading (modulo modulus.p) w.now)) }
    ensures value { polynomial modulus.p window.new office.system_coefficients (degree w.now)
        ≡ remainder (modulo modulus.p) z.now w.now }
    ensures reduced { ReducedFrom modulus.p window.new office.system_coefficients
        × (length window.new ≡ window_words) }
{
    let n = z.len();
    let e = w.len() - 1;
    let mut rest = [0; DIVIDEND];
    copy(&mut rest, 0, z, 0, n);
    divide_words(&mut rest, n, window, w, e, inverse, modulus);
    clear(window, 0, WINDOW);
    copy(window, PLACES, &rest, 0, n.min(e));
    reduce_range(window, PLACES + e, modulus);
}

// Adds coefficient k of f, times the polynomial in the window after k multiplications by x, to what is carried of column j. Where f
// has no coefficient k, or it is 0, nothing is added; modulo 2 it is 0 half the time.
fn add_term(carried: &mut Remainders, j: usize, f: &[u64], k: usize, window: &Window, e: usize)
    requires carried_len { (length carried.old ≡ carried_words) × (j < office.columns) × (k ≤ office.system_coefficients)
        × (length window.now ≡ window_words) × (e ≤ carried_width) }
    requires small { AtMost sum_most carried.old × AtMost most16 f.now × AtMost most16 window.now }
    ensures { carried.new ≡
        stored (sum_at carried.old (j * carried_width) window.now (office.system_coefficients - k)
        (get_or f.now k 0)) carried.old (j * carried_width) e }
{
    if k < f.len() && f[k] != 0 {
        add_scaled(carried, j * REMAINDER_WIDTH, window, PLACES - k, e, f[k]);
    }
}

// Adds such a term to what is carried of every column: coefficient k of its entry in row i, times the polynomial in the window.
fn add_to_columns(
    carried: &mut Remainders,
    window: &Window,
    e: usize,
    areas: &SolutionAreas,
    i: usize,
    k: usize,
)
    requires bounds { (i < areas.now.dimensions.rows) × (k < office.system_coefficients) }
    requires sums { CarriedSums areas.now.dimensions.modulus.p (i * office.system_coefficients + k) carried.old }
    requires window { (length window.now ≡ window_words) × (e ≤ carried_width)
        × ReducedFrom areas.now.dimensions.modulus.p window.now (office.system_coefficients - k) }
    ensures terms { (j : ℕ) → j < areas.now.dimensions.columns →
        carried_in areas.now.dimensions.modulus.p e carried.new j ≡
        add (modulo areas.now.dimensions.modulus.p) (carried_in areas.now.dimensions.modulus.p e carried.old j)
        (scale (modulo areas.now.dimensions.modulus.p)
        (get_or (slot system_width areas.now.system.now (i * areas.now.dimensions.columns + j)) k 0)
        (polynomial areas.now.dimensions.modulus.p window.now (office.system_coefficients - k) e)) }
    ensures sums { CarriedSums areas.now.dimensions.modulus.p (i * office.system_coefficients + k + 1) carried.new }
{
    let columns = areas.dimensions.columns;
    for j in 0..columns {
        let f = coefficients_in(areas.system, SYSTEM_WIDTH, i * columns + j);
        add_term(carried, j, f, k, window, e);
    }
}

// Returns the most coefficients that an entry in row i has. What is promised, and needed, is only that none has more.
fn longest_entry(areas: &SolutionAreas, i: usize) -> usize
    requires { i < areas.now.dimensions.rows }
    ensures { (result ≤ office.system_coefficients)
        × ((j : ℕ) → j < areas.now.dimensions.columns →
        length (slot system_width areas.now.system.now (i * areas.now.dimensions.columns + j)) ≤ result) }
{
    let columns = areas.dimensions.columns;
    (0..columns)
        .map(|j| coefficients_in(areas.system, SYSTEM_WIDTH, i * columns + j).len())
        .max()
        .unwrap_or(0)
}

// Takes row i along in every column: what is carried on is the remainder by w of what was carried and of Z_i·A_ij, added. So it is
// the remainder of the sum with the row, where it was that of the sum before it (`carries_on`).
fn take_row(carried: &mut Remainders, areas: &SolutionAreas, inverse: u64, i: usize)
    requires bounds { i < areas.now.dimensions.rows }
    requires divisor { (0 < length (certifying_denominator_of areas.now))
        × (inverse ≡ (modulo areas.now.dimensions.modulus.p).inverse
        (leading (modulo areas.now.dimensions.modulus.p) (certifying_denominator_of areas.now))) }
    requires sums { CarriedSums areas.now.dimensions.modulus.p (i * office.system_coefficients) carried.old }
    ensures { TakesRow (system_of areas.now) (certifying_denominator_of areas.now) (certifying_numerators_of areas.now) i
        carried.old carried.new }
{
    let dimensions = areas.dimensions;
    let modulus = dimensions.modulus;
    let w = coefficients_in(areas.certificate, CERTIFICATE_WIDTH, dimensions.columns + 1);
    let z = coefficients_in(
        areas.certificate,
        CERTIFICATE_WIDTH,
        dimensions.columns + 2 + i,
    );
    let e = w.len() - 1;
    let longest = longest_entry(areas, i);
    let mut window = [0; WINDOW];
    store_remainder(&mut window, z, w, inverse, modulus);
    for k in 0..longest {
        add_to_columns(carried, &window, e, areas, i, k);
        multiply_by_x(&mut window, PLACES - (k + 1), w, e, inverse, modulus);
    }
}

// Walks down the columns of Z·A from the first row to the last, with `carried` all 0 before the first. Behind the last it reduces
// what is carried: of each column the remainder by w of the column of Z·A.
pub fn walk_columns(carried: &mut Remainders, areas: &SolutionAreas)
    requires divisor { 0 < length (certifying_denominator_of areas.now) }
    requires zeros { CarriedSums areas.now.dimensions.modulus.p 0 carried.old }
    ensures carries { Carries (system_of areas.now) (certifying_denominator_of areas.now)
        (certifying_numerators_of areas.now) areas.now.dimensions.rows carried.new }
    ensures reduced { (x : ℕ) → get_or carried.new x 0 < areas.now.dimensions.modulus.p }
{
    let dimensions = areas.dimensions;
    let w = coefficients_in(areas.certificate, CERTIFICATE_WIDTH, dimensions.columns + 1);
    let inverse = dimensions.modulus.inverse(w[w.len() - 1]);
    for i in 0..dimensions.rows {
        take_row(carried, areas, inverse, i);
    }
    reduce_range(carried, REMAINDERS, dimensions.modulus);
}

// Tells whether the remainder that is carried of column j, e coefficients at the most, is not zero.
pub fn leaves_remainder(carried: &[u64], e: usize, j: usize, modulus: Modulus) -> bool
    requires bounds { (e ≤ carried_width) × (j < office.columns) }
    requires reduced { (length carried.now ≡ carried_words) × ((x : ℕ) → get_or carried.now x 0 < modulus.p) }
    ensures { result ≡ not (zero? (carried_in modulus.p e carried.now j)) }
{
    let from = j * REMAINDER_WIDTH;
    let leading = find_leading(&carried[from..from + e], e, modulus);
    0 < leading.size
}

// Sums over a state's row, by the weights that are not 0 where each row has few. Where the windows are long D is small, and a row has at
// most D of them.
#![tactic(auto)]

ghost use Rattle.std.specs.Prelude.{◌≡◌, ℕ, ◌+◌, ◌*◌, ◌≤◌, ◌<◌, length, get_or, IfSome};
ghost use Rattle.counting.specs.Below.{sum_below};
ghost use Rattle.meaning.specs.Size.{size_limit};
ghost use Rattle.layers.specs.Held.{most_states};
ghost use Rattle.row_sums.specs.Sparse.{places_in_row, most_named, products_at, named_at, most_pairs, Naming, Named, RowsNamed, RowsPaired};

use layers::STATES;

pub mod rows;

// The places of a row, which name states to which its weight is not 0.
pub const PLACES: usize = 8;

// The most of them that are used. Products are made two at a time, so one place more is read.
const MOST: usize = 7;

// The sum over the states of a row's weight times a column's number. A `for`: a chain of `zip`, `map` and `sum` is as long, and no plainer.
fn dot(row: &[u16; STATES], column: &[u64; STATES], states: usize) -> u64
    requires { (states ≤ most_states) × (sum_below states (λ t. get_or row.now t 0 * get_or column.now t 0) ≤ size_limit) }
    ensures { result ≡ sum_below states (λ t. get_or row.now t 0 * get_or column.now t 0) }
{
    let mut total: u64 = 0;
    for t in 0..states {
        total += u64::from(row[t]) * column[t];
    }
    total
}

// A row's weight times a column's number, at a place.
fn product(row: &[u16; STATES], column: &[u64; STATES], place: u8) -> u64
    requires { (place < most_states) × (get_or row.now place 0 * get_or column.now place 0 ≤ size_limit) }
    ensures { result ≡ get_or row.now place 0 * get_or column.now place 0 }
{
    let t = usize::from(place);
    u64::from(row[t]) * column[t]
}

// The products at two places of a row that are neighbours.
fn pair(row: &[u16; STATES], places: &[u8; PLACES], column: &[u64; STATES], i: usize) -> u64
    requires { (i ≤ 6) × ((k : ℕ) → k < places_in_row → get_or places.now k 0 < most_states) ×
        (products_at row.now places.now column.now i ≤ size_limit) }
    ensures { result ≡ products_at row.now places.now column.now i }
{
    product(row, column, places[i]) + product(row, column, places[i + 1])
}

// The sum of the products at the first pairs of places: two at a time, since most rows have one weight or two.
fn dot_named(
    row: &[u16; STATES],
    places: &[u8; PLACES],
    column: &[u64; STATES],
    pairs: usize,
) -> u64
    requires { (1 ≤ pairs) × (pairs ≤ most_pairs) × ((k : ℕ) → k < places_in_row → get_or places.now k 0 < most_states) ×
        (sum_below places_in_row (named_at row.now places.now (λ t. get_or column.now t 0)) ≤ size_limit) }
    ensures { result ≡ sum_below (2 * pairs) (named_at row.now places.now (λ t. get_or column.now t 0)) }
{
    let mut total = pair(row, places, column, 0);
    for i in 1..pairs {
        total += pair(row, places, column, 2 * i);
    }
    total
}

// The sum over the states: by the places that name the weights, of which `most` are used, or where there are none by all states.
pub fn row_sum(
    row: &[u16; STATES],
    places: &[u8; PLACES],
    column: &[u64; STATES],
    states: usize,
    most: Option<usize>,
) -> u64
    requires { (states ≤ most_states) × IfSome most (λ m. (1 ≤ m) × (m ≤ most_named) × Named row.now states m places.now) ×
        (sum_below states (λ t. get_or row.now t 0 * get_or column.now t 0) ≤ size_limit) }
    ensures { result ≡ sum_below states (λ t. get_or row.now t 0 * get_or column.now t 0) }
{
    match most {
        Some(most) => dot_named(row, places, column, most.div_ceil(2)),
        None => dot(row, column, states),
    }
}

// A state to which the row has weight 0.
fn zero_in(row: &[u16; STATES], states: usize) -> Option<usize>
    requires { states ≤ most_states }
    ensures { IfSome result (λ t. (t < states) × (get_or row.now t 0 ≡ 0)) }
{
    row[..states].iter().position(|weight| *weight == 0)
}

// Names state t if its weight is not 0, and returns how many are named now: none if they are too many.
fn name(row: &[u16; STATES], t: usize, count: usize, places: &mut [u8; PLACES]) -> Option<usize>
    requires { (t < most_states) × Naming row.now t count places.old }
    ensures { IfSome result (λ more. Naming row.now (t + 1) more places.new) }
{
    if row[t] == 0 {
        return Some(count);
    }
    if count == MOST {
        return None;
    }
    places[count] = t as u8;
    Some(count + 1)
}

// Names the states to which the row's weight is not 0, and returns how many they are: none if they are too many. At the
// start all places name a weight that is 0.
fn name_row(row: &[u16; STATES], states: usize, places: &mut [u8; PLACES]) -> Option<usize>
    requires { (states ≤ most_states) × Naming row.now 0 0 places.old }
    ensures { IfSome result (λ count. Naming row.now states count places.new) }
{
    let mut count = 0;
    for t in 0..states {
        count = name(row, t, count, places)?;
    }
    Some(count)
}

// The same, whatever the places hold at the start. Returns none too if no weight is 0.
fn name_anew(row: &[u16; STATES], states: usize, places: &mut [u8; PLACES]) -> Option<usize>
    requires { states ≤ most_states }
    ensures { IfSome result (λ count. Naming row.now states count places.new) }
{
    let spare = zero_in(row, states)?;
    *places = [spare as u8; PLACES];
    name_row(row, states, places)
}

// Names the weights of all rows that are not 0, and returns how many a row has at most: none if some row has too many. No contract says
// how many exactly; any number that is enough does.
pub fn name_rows(
    rows: &[[u16; STATES]; STATES],
    states: usize,
    places: &mut [[u8; PLACES]; STATES],
) -> Option<usize>
    requires { (states ≤ most_states) × (length places.old ≡ most_states) }
    ensures { IfSome result (λ most. RowsNamed rows.now states most places.new) }
{
    let mut most: usize = 1;
    for s in 0..states {
        let count = name_anew(&rows[s], states, &mut places[s])?;
        most = most.max(count);
    }
    Some(most)
}

// The same; it returns how many pairs of places are enough for each row.
pub(crate) fn pair_rows(
    rows: &[[u16; STATES]; STATES],
    states: usize,
    places: &mut [[u8; PLACES]; STATES],
) -> Option<usize>
    requires { (states ≤ most_states) × (length places.old ≡ most_states) }
    ensures { IfSome result (λ pairs. RowsPaired rows.now states pairs places.new) }
{
    let most = name_rows(rows, states, places)?;
    Some(most.div_ceil(2))
}

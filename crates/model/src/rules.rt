// What the layout asks of a model's fields: rows 4 and 5 of document 01's table, of a record.
ghost use Rattle.std.specs.Prelude.{◌≡◌, ◌||◌, ◌&&◌, ◌^◌, ◌<◌, get_or, ltb, eqb};
ghost use Rattle.counting.specs.Below.{sum_below, every_below};
ghost use Rattle.model.specs.Rules.{numbers_right, mask_right, weight_right, fields_right, halted, rows_right};

use crate::Model;

// Whether a mask has its bits A and up zero.
fn mask_fits(mask: u16, a: u32) -> bool
    ensures { result ≡ ltb mask (2 ^ a) }
{
    if 16 <= a {
        true
    } else {
        u32::from(mask) < 1u32 << a
    }
}

// The sum of a row.
fn row_sum(row: &[u16; 32]) -> u32
    ensures { (result ≡ sum_below 32 (λ t. get_or row.now t 0)) × (result < 2097152) }
{
    row.iter().map(|w| u32::from(*w)).sum()
}

// Whether a row is zero from a column on.
fn zero_from(row: &[u16; 32], from: usize) -> bool
    ensures { result ≡ every_below 32 (λ t. ltb t from || eqb (get_or row.now t 0) 0) }
{
    row.iter().skip(from).all(|w| *w == 0)
}

// Whether state s, with this row, is halted: one of the N states, in version 1, with an empty row.
pub fn is_halted(row: &[u16; 32], s: usize, n: usize, version: u32) -> bool
    ensures { result ≡ (ltb s n && eqb version 1 && every_below 32 (λ t. eqb (get_or row.now t 0) 0)) }
{
    (s < n) & (version == 1) & zero_from(row, 0)
}

impl Model {
    // Whether N is 1..32 states, A is 1..16 labels, D is 1..65,535 and the version is 0 or 1.
    fn numbers_right(&self) -> bool
        ensures { result ≡ numbers_right self.now }
    {
        let states = (1 <= self.n) & (self.n <= 32);
        let labels = (1 <= self.a) & (self.a <= 16);
        let total = (1 <= self.d) & (self.d <= 65535);
        states & labels & total & (self.version <= 1)
    }

    // Whether state s may have its mask.
    fn mask_right(&self, s: usize) -> bool
        requires { s < 32 }
        ensures { result ≡ mask_right self.now s }
    {
        let mask = self.masks[s];
        (s < self.n as usize) & mask_fits(mask, self.a) | (mask == 0)
    }

    // Whether the row of state s is zero from column N on, and for a state from N on all of it.
    fn row_ends(&self, s: usize) -> bool
        requires { s < 32 }
        ensures { result ≡ every_below 32 (weight_right self.now s) }
    {
        let n = self.n as usize;
        let row = &self.weights[s];
        if s < n {
            zero_from(row, n)
        } else {
            zero_from(row, 0)
        }
    }

    // Whether row 4 does not apply to the record.
    pub fn fields_right(&self) -> bool
        ensures { result ≡ fields_right self.now }
    {
        if !self.numbers_right() {
            return false;
        }
        for s in 0..32 {
            if !(self.mask_right(s) & self.row_ends(s)) {
                return false;
            }
        }
        true
    }

    // Whether state s is halted: one of the N states, in version 1, with an empty row.
    pub fn is_halted(&self, s: usize) -> bool
        ensures { result ≡ halted self.now s }
    {
        let n = self.n as usize;
        match self.weights.get(s) {
            Some(row) => is_halted(row, s, n, self.version),
            None => (s < n) & (self.version == 1),
        }
    }

    // Whether row 5 does not apply to the record: the row of every state below N adds up to D, or the state is halted.
    pub fn rows_right(&self) -> bool
        ensures { result ≡ rows_right self.now }
    {
        for s in 0..32 {
            let past = self.n as usize <= s;
            let adds_up = row_sum(&self.weights[s]) == self.d;
            if !(past | adds_up | self.is_halted(s)) {
                return false;
            }
        }
        true
    }
}

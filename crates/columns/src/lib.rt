// The records of document 01 as columns, the tests its questions are made of, and stores into columns.
// Every function takes any input: a place past a column's end reads as 0 and is not written.
#![tactic(auto)]

pub mod questions;
pub mod refusal;
pub mod stores;

ghost use Rattle.std.specs.Prelude.{◌≡◌, ◌<◌, set};
ghost use Rattle.std.specs.Float.{binary64};
ghost use Rattle.std.specs.Float.Ieee.{of_bits};
ghost use Rattle.columns.specs.Places.{position, position_at};

// The number of a vertex, and of an edge. They count separately from 0.
#[derive(Clone, Copy, Debug, PartialEq, Eq)]
pub struct VertexIndex(pub u32);

#[derive(Clone, Copy, Debug, PartialEq, Eq)]
pub struct EdgeIndex(pub u32);

// The width of a stored weight, and of a weight in a table, where -1 stands for none. specs/Limits.antt and proofs/Widths.antt say the second for contracts and proofs.
pub type Weight = u32;

pub type TableWeight = i32;

// The limits of document 01's Records.
pub const VERTEX_LIMIT: u32 = 4096;

pub const EDGE_LIMIT: u32 = 32768;

pub const HALF_WEIGHT_LIMIT: Weight = 250_000;

pub const WEIGHT_LIMIT: Weight = 500_000;

// More than any sum along a walk that meets no vertex twice: at most one weight for each vertex.
pub const SUM_LIMIT: Weight = (VERTEX_LIMIT as Weight) * WEIGHT_LIMIT + 1;

// Boundary bytes.
pub const INNER: u8 = 0;

pub const LEFT: u8 = 1;

pub const RIGHT: u8 = 2;

pub const BOUNDARY_LIMIT: u8 = 2;

// Defect bytes and erasure bytes are 0 or 1.
pub const MARK_LIMIT: u8 = 1;

// The f64 with these bits, for any bits.
pub fn of_bits(n: u64) -> f64
    ensures { result ≡ of_bits binary64 n }
{
    if 0x7ff0_0000_0000_0000 < n % 0x8000_0000_0000_0000 {
        0.0 / 0.0
    } else {
        f64::from_bits(n)
    }
}

// Where a vertex is drawn: i down, j to the right, t in time.
#[derive(Clone, Copy)]
pub struct VisualizePosition {
    pub i: f64,
    pub j: f64,
    pub t: f64,
}

impl VisualizePosition {
    pub fn new(i: f64, j: f64, t: f64) -> Self
        ensures { result ≡ position i j t }
    {
        Self { i, j, t }
    }

    // The position at a place of three columns.
    pub fn load(pos_i: &[f64], pos_j: &[f64], pos_t: &[f64], v: usize) -> Self
        ensures { result ≡ position_at pos_i.now pos_j.now pos_t.now v }
    {
        Self {
            i: stores::load_f64(pos_i, v),
            j: stores::load_f64(pos_j, v),
            t: stores::load_f64(pos_t, v),
        }
    }

    // Stores the position at a place of three columns.
    pub fn store(self, pos_i: &mut [f64], pos_j: &mut [f64], pos_t: &mut [f64], v: usize)
        ensures { (pos_i.new ≡ set pos_i.old v self.i) × (pos_j.new ≡ set pos_j.old v self.j) × (pos_t.new ≡ set pos_t.old v self.t) }
    {
        stores::store_f64(pos_i, v, self.i);
        stores::store_f64(pos_j, v, self.j);
        stores::store_f64(pos_t, v, self.t);
    }
}

// Stores of edges and vertices into lent columns, one after another from a place on.
#![tactic(auto)]

ghost use Rattle.std.specs.Prelude.{[], ◌∷◌, ◌+◌, ◌*◌, ◌≤◌, ◌<◌, length};
ghost use Rattle.columns.specs.Lists.{when};
ghost use Rattle.codes_writers.specs.Edges.{straight_edges, straight_rows};
ghost use Rattle.codes_writers.specs.Steps.{Room, Wrote, VertexRoom, Placed};

use columns::{VertexIndex, VisualizePosition};

// A new vertex: its boundary byte, and where it is drawn.
#[derive(Clone, Copy)]
pub struct CodeVertex {
    pub boundary: u8,
    pub position: VisualizePosition,
}

// Stores the edge that joins a and b.
pub fn push(
    ends_a: &mut [u32],
    ends_b: &mut [u32],
    at: usize,
    a: VertexIndex,
    b: VertexIndex,
) -> usize
    requires { (at < length ends_a.old) × (at < length ends_b.old) }
    ensures { Wrote ends_a.old ends_b.old at ((a.0, b.0) ∷ []) ends_a.new ends_b.new result }
{
    ends_a[at] = a.0;
    ends_b[at] = b.0;
    at + 1
}

// Stores the edge where the test holds.
pub fn push_if(
    met: bool,
    ends_a: &mut [u32],
    ends_b: &mut [u32],
    at: usize,
    a: VertexIndex,
    b: VertexIndex,
) -> usize
    requires { Room ends_a.old ends_b.old at (when met (a.0, b.0)) }
    ensures { Wrote ends_a.old ends_b.old at (when met (a.0, b.0)) ends_a.new ends_b.new result }
{
    if met {
        return push(ends_a, ends_b, at, a, b);
    }
    at
}

// Stores n edges from the vertices from bias on, each to the vertex that comes far later.
pub fn straight_edges(
    ends_a: &mut [u32],
    ends_b: &mut [u32],
    at: usize,
    n: u32,
    bias: u32,
    far: u32,
) -> usize
    requires room { Room ends_a.old ends_b.old at (straight_edges n bias far) }
    requires n_bound { (n ≤ 4096) × ((bias ≤ 4096) × (far ≤ 4096)) }
    ensures { Wrote ends_a.old ends_b.old at (straight_edges n bias far) ends_a.new ends_b.new result }
{
    let mut next = at;
    for i in 0..n {
        next = push(
            ends_a,
            ends_b,
            next,
            VertexIndex(bias + i),
            VertexIndex(bias + i + far),
        );
    }
    next
}

// The same from the first n of w places of each row.
pub fn straight_rows(
    ends_a: &mut [u32],
    ends_b: &mut [u32],
    at: usize,
    rows: u32,
    n: u32,
    w: u32,
    base: u32,
    far: u32,
) -> usize
    requires room { Room ends_a.old ends_b.old at (straight_rows rows n w base far) }
    requires n_bound { (n ≤ 4096) × ((base + rows * w ≤ 4096) × (far ≤ 4096)) }
    ensures { Wrote ends_a.old ends_b.old at (straight_rows rows n w base far) ends_a.new ends_b.new result }
{
    let mut next = at;
    for row in 0..rows {
        next = straight_edges(ends_a, ends_b, next, n, base + row * w, far);
    }
    next
}

// Stores one vertex.
pub fn push_vertex(
    boundary: &mut [u8],
    pos_i: &mut [f64],
    pos_j: &mut [f64],
    pos_t: &mut [f64],
    at: usize,
    vertex: CodeVertex,
) -> usize
    requires { VertexRoom boundary.old pos_i.old pos_j.old pos_t.old at 1 }
    ensures { Placed boundary.old pos_i.old pos_j.old pos_t.old at (vertex ∷ []) boundary.new pos_i.new pos_j.new pos_t.new result }
{
    boundary[at] = vertex.boundary;
    let position = vertex.position;
    position.store(pos_i, pos_j, pos_t, at);
    at + 1
}

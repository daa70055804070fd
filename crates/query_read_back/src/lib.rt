// A path read back from its last vertex in a settled state.
#![tactic(auto)]

ghost use Rattle.std.specs.Prelude.{◌≡◌, List, map, ℕ, ◌-◌, ◌≤◌, length, get_or};
ghost use Rattle.std.proofs.lemmas.List.Edits.{sets};
ghost use Rattle.engine_walks.specs.Answers.{entry, read_back_of, step_into, taken};
ghost use Rattle.query_relaxing.specs.Ready.{state_of};
ghost use Rattle.query_read_back.specs.Path.{step_back, entry_of};

use columns::{VertexIndex, Weight};

// The table's entry for vertex v: its previous vertex, none where it was not taken.
fn entry_at(status: &[u8], previous: &[u32], v: VertexIndex) -> Option<VertexIndex>
    ensures { (w : List ℕ) → result ≡ entry_of (entry (state_of status.now w previous.now) v.0) }
{
    if is_taken(status, v) {
        Some(VertexIndex(load_previous(previous, v)))
    } else {
        None
    }
}

// The previous vertex of v, 0 past the column's end.
fn load_previous(previous: &[u32], v: VertexIndex) -> u32
    ensures { result ≡ get_or previous.now v.0 0 }
{
    previous.get(v.0 as usize).copied().unwrap_or(0)
}

// The weight of v, 0 past the column's end.
pub fn load_weight(weight: &[Weight], v: VertexIndex) -> Weight
    ensures { result ≡ get_or weight.now v.0 0 }
{
    weight.get(v.0 as usize).copied().unwrap_or(0)
}

// One step back from v on the way to a: none at a, and where v was not taken.
fn step_back(status: &[u8], previous: &[u32], a: VertexIndex, v: VertexIndex) -> Option<VertexIndex>
    ensures { (w : List ℕ) → result ≡ entry_of (step_back (state_of status.now w previous.now) a.0 v.0) }
{
    if v.0 == a.0 {
        None
    } else {
        entry_at(status, previous, v)
    }
}

// How many vertices the path from a to b has.
pub fn path_length(status: &[u8], previous: &[u32], a: VertexIndex, b: VertexIndex) -> usize
    ensures { (w : List ℕ) → result ≡ length (read_back_of (state_of status.now w previous.now) a.0 (length status.now) b.0) }
{
    let n = status.len();
    let mut v = b;
    for j in 0..n {
        let Some(p) = step_back(status, previous, a, v) else {
            return j;
        };
        v = p;
    }
    n
}

// The weight of the step from p to v, 0 where v weighs less.
fn step_weight(weight: &[Weight], p: VertexIndex, v: VertexIndex) -> Weight
    ensures { result ≡ get_or weight.now v.0 0 - get_or weight.now p.0 0 }
{
    load_weight(weight, v).saturating_sub(load_weight(weight, p))
}

// The path's vertices and the weights of its steps, from the last back to the first.
pub fn write_path(
    status: &[u8],
    weight: &[Weight],
    previous: &[u32],
    a: VertexIndex,
    b: VertexIndex,
    count: usize,
    out_vertices: &mut [u32],
    out_steps: &mut [Weight],
)
    requires { (count ≡ length (read_back_of (state_of status.now weight.now previous.now) a.0 (length status.now) b.0)) × (count ≤ length out_vertices.old) × (count ≤ length out_steps.old) }
    ensures out_vertices_after { out_vertices.new ≡ sets out_vertices.old 0 (read_back_of (state_of status.now weight.now previous.now) a.0 (length status.now) b.0) }
    ensures out_steps_after { out_steps.new ≡ sets out_steps.old 0 (map (step_into (state_of status.now weight.now previous.now)) (read_back_of (state_of status.now weight.now previous.now) a.0 (length status.now) b.0)) }
{
    let mut v = b;
    for i in (0..count).rev() {
        let Some(p) = step_back(status, previous, a, v) else {
            return;
        };
        out_vertices[i] = v.0;
        out_steps[i] = step_weight(weight, p, v);
        v = p;
    }
}

// Whether v was taken.
pub fn is_taken(status: &[u8], v: VertexIndex) -> bool
    ensures { (w p : List ℕ) → result ≡ taken (state_of status.now w p) v.0 }
{
    status.get(v.0 as usize) == Some(&2)
}

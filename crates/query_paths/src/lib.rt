// The path between two vertices: settled from the one, read back from the other.
#![tactic(auto)]

ghost use Rattle.std.specs.Prelude.{◌≡◌, ◌≤◌, length, take};
ghost use Rattle.columns.specs.Refusals.{question_of};
ghost use Rattle.engine_columns.specs.Records.{engine_in};
ghost use Rattle.query_relaxing.specs.Ready.{state_of};
ghost use Rattle.query_questions.specs.Scratch.{scratch_in};
ghost use Rattle.query_paths.specs.GetPath.{path_asked, PathSaid, vertices_after, steps_after, GotPath};
ghost use Rattle.query_read_back.specs.Path.{path_of};

use columns::refusal::{Refusal, require};
use columns::{VertexIndex, Weight};
use engine_columns::EngineCounts;
use query_questions::{query_refusal, scratch_fits};
use query_read_back::{is_taken, load_weight, path_length, write_path};
use query_search::{Origin, search};

// How many vertices a path has after its first, and its total weight.
#[derive(Clone, Copy, Debug, PartialEq, Eq)]
pub struct PathCounts {
    pub length: u32,
    pub total: Weight,
}

// Questions 6, 7, 13 and 16 of a path, from the lengths of its columns, and whether scratch is long enough.
fn path_asked(
    c: EngineCounts,
    ends_a: &[u32],
    ends_b: &[u32],
    weights: &[Weight],
    boundary: &[u8],
    log_edges: &[u32],
    log_weights: &[Weight],
    a: VertexIndex,
    b: VertexIndex,
    out_vertices: usize,
    out_steps: usize,
    scratch: bool,
) -> Result<(), Refusal>
    ensures { question_of result ≡ path_asked (engine_in c ends_a.now ends_b.now weights.now boundary.now log_edges.now log_weights.now) scratch a.0 b.0 out_vertices out_steps }
{
    let v = c.vertices as usize;
    query_refusal(
        c,
        ends_a,
        ends_b,
        weights,
        boundary,
        log_edges,
        log_weights,
        v <= out_vertices && v <= out_steps && scratch,
        a.0 < c.vertices && b.0 < c.vertices,
    )?;
    require(a.0 != b.0, Refusal::SameVertex)
}

// The path of a to b in the settled state of the first v vertices, written down; 17 where b was not taken.
fn found_path(
    v: usize,
    status: &[u8],
    weight: &[Weight],
    previous: &[u32],
    a: VertexIndex,
    b: VertexIndex,
    out_vertices: &mut [u32],
    out_steps: &mut [Weight],
) -> Result<PathCounts, Refusal>
    requires few { v ≤ 4096 }
    requires lengths { (v ≤ length status.now) × (v ≤ length weight.now) × (v ≤ length previous.now) × (v ≤ length out_vertices.old) × (v ≤ length out_steps.old) }
    ensures path_said { PathSaid 0 (path_of (state_of (take v status.now) (take v weight.now) (take v previous.now)) v a.0 b.0) result }
    ensures out_vertices_after { out_vertices.new ≡ vertices_after (path_of (state_of (take v status.now) (take v weight.now) (take v previous.now)) v a.0 b.0) out_vertices.old }
    ensures out_steps_after { out_steps.new ≡ steps_after (path_of (state_of (take v status.now) (take v weight.now) (take v previous.now)) v a.0 b.0) out_steps.old }
{
    let status = &status[..v];
    let weight = &weight[..v];
    let previous = &previous[..v];
    require(is_taken(status, b), Refusal::Unreached)?;
    let count = path_length(status, previous, a, b);
    write_path(
        status,
        weight,
        previous,
        a,
        b,
        count,
        out_vertices,
        out_steps,
    );
    Ok(PathCounts {
        length: count as u32,
        total: load_weight(weight, b),
    })
}

// The path of least weight from a to b: each vertex after a, up to b, with the weight of the step into it.
// The columns from `neighbor_numbers` on are scratch.
pub fn get_path(
    c: EngineCounts,
    ends_a: &[u32],
    ends_b: &[u32],
    weights: &[Weight],
    boundary: &[u8],
    log_edges: &[u32],
    log_weights: &[Weight],
    a: VertexIndex,
    b: VertexIndex,
    out_vertices: &mut [u32],
    out_steps: &mut [Weight],
    neighbor_numbers: &mut [u32],
    list_ends: &mut [u32],
    status: &mut [u8],
    weight: &mut [Weight],
    previous: &mut [u32],
    node: &mut [u64],
    leaf: &mut [u64],
) -> Result<PathCounts, Refusal>
    ensures { GotPath (engine_in c ends_a.now ends_b.now weights.now boundary.now log_edges.now log_weights.now) a.0 b.0 result
        out_vertices.old out_vertices.new out_steps.old out_steps.new
        (scratch_in neighbor_numbers.old list_ends.old status.old weight.old previous.old node.old leaf.old)
        (scratch_in neighbor_numbers.new list_ends.new status.new weight.new previous.new node.new leaf.new) }
{
    let room = scratch_fits(
        c,
        neighbor_numbers,
        list_ends,
        status,
        weight,
        previous,
        node,
        leaf,
    );
    path_asked(
        c,
        ends_a,
        ends_b,
        weights,
        boundary,
        log_edges,
        log_weights,
        a,
        b,
        out_vertices.len(),
        out_steps.len(),
        room,
    )?;
    search(
        c,
        ends_a,
        ends_b,
        weights,
        boundary,
        Origin::At(a, b),
        neighbor_numbers,
        list_ends,
        status,
        weight,
        previous,
        node,
        leaf,
    );
    found_path(
        c.vertices as usize,
        status,
        weight,
        previous,
        a,
        b,
        out_vertices,
        out_steps,
    )
}

// Whether a graph is reasonable.
ghost use Rattle.std.specs.Prelude.{◌≡◌, ◌≤◌, length};
ghost use Rattle.columns_neighbors.specs.Lists.{sum_to};
ghost use Rattle.sanity_verdicts.specs.Sanity.{verdict, sanity_long, SanityChecked};

use columns::refusal::{Refusal, require};
use columns_room::{lists_long, two_long};
use sanity_pairs::duplicates;
use sanity_verdicts::Finding;
use sanity_verdicts::lists::vertices_checked;

// Question 6.
#[tactic(auto, unfolding(sanity_verdicts::specs::Sanity::sanity_long))]
fn sanity_long(
    vertex_num: u32,
    edge_num: u32,
    ends_a: &[u32],
    ends_b: &[u32],
    list_lengths: &[u32],
    neighbor_numbers: &[u32],
) -> bool
    ensures { result ≡ sanity_long vertex_num edge_num ends_a.now ends_b.now list_lengths.now neighbor_numbers.now }
{
    let ends = two_long(edge_num as usize, ends_a.len(), ends_b.len());
    let lengths = vertex_num as usize <= list_lengths.len();
    ends && lengths && lists_long(vertex_num, edge_num, list_lengths, neighbor_numbers)
}

// The verdict on columns that are long enough.
#[tactic(auto, unfolding(sanity_verdicts::specs::Sanity::verdict), using(sanity_verdicts::proofs::Scans::or_found, sanity_verdicts::proofs::Scans::none_of))]
fn verdict_of(
    vertex_num: u32,
    edge_num: u32,
    ends_a: &[u32],
    ends_b: &[u32],
    list_lengths: &[u32],
    neighbor_numbers: &[u32],
) -> Option<Finding>
    requires { (edge_num ≤ length ends_a.now) × (edge_num ≤ length ends_b.now) × (vertex_num ≤ length list_lengths.now) × (sum_to vertex_num list_lengths.now ≤ length neighbor_numbers.now) }
    ensures { result ≡ verdict vertex_num edge_num ends_a.now ends_b.now list_lengths.now neighbor_numbers.now }
{
    if vertex_num == 0 || edge_num == 0 {
        return Some(Finding::Empty);
    }
    let edges = duplicates(ends_a, ends_b, edge_num);
    if edges.is_some() {
        return edges;
    }
    vertices_checked(list_lengths, neighbor_numbers, vertex_num)
}

// The first thing wrong with a graph: no vertices or no edges, two edges that join one pair, a vertex without edges, an edge twice at a vertex.
#[tactic(auto, using(crate::proofs::Verdicts::long_of, crate::proofs::Verdicts::checked))]
pub fn sanity_check(
    vertex_num: u32,
    edge_num: u32,
    ends_a: &[u32],
    ends_b: &[u32],
    list_lengths: &[u32],
    neighbor_numbers: &[u32],
) -> Result<Option<Finding>, Refusal>
    ensures { SanityChecked vertex_num edge_num ends_a.now ends_b.now list_lengths.now neighbor_numbers.now result }
{
    let long = sanity_long(
        vertex_num,
        edge_num,
        ends_a,
        ends_b,
        list_lengths,
        neighbor_numbers,
    );
    require(long, Refusal::ShortColumn)?;
    Ok(verdict_of(
        vertex_num,
        edge_num,
        ends_a,
        ends_b,
        list_lengths,
        neighbor_numbers,
    ))
}

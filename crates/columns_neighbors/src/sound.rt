// Question 7 of counts, ends and log.
ghost use Rattle.std.specs.Prelude.{◌≡◌, true};
ghost use Rattle.columns.specs.Questions.{vertex_count_sound, edge_count_sound};
ghost use Rattle.columns_neighbors.specs.Sound.{ends_in_range, graph_sound, log_sound};

use columns::Weight;
use columns::questions::{all_below, edge_count_sound, vertex_count_sound, weights_sound};
use columns_pairs::{ascending, ends_differ, pairs_apart};

// Whether the columns hold the edges, with ends in range.
#[tactic(auto, unfolding(crate::specs::Sound::ends_in_range))]
fn ends_in_range(vertex_num: u32, edge_num: u32, a: &[u32], b: &[u32]) -> bool
    ensures { result ≡ ends_in_range vertex_num edge_num a.now b.now }
{
    let n = edge_num as usize;
    n <= a.len() && n <= b.len() && all_below(a, n, vertex_num) && all_below(b, n, vertex_num)
}

// Whether the columns hold the edges, with ends that are in range and ascend, as in every built code: then they are those of a graph.
fn ascending_ends(vertex_num: u32, edge_num: u32, a: &[u32], b: &[u32]) -> bool
    requires { (vertex_count_sound vertex_num ≡ true) × (edge_count_sound edge_num ≡ true) }
    ensures { result ≡ true → graph_sound vertex_num edge_num a.now b.now ≡ true }
{
    let n = edge_num as usize;
    n <= a.len() && n <= b.len() && ascending(a, b, n, vertex_num)
}

// Whether counts and ends are those of a graph.
pub fn graph_sound(vertex_num: u32, edge_num: u32, a: &[u32], b: &[u32]) -> bool
    ensures { result ≡ graph_sound vertex_num edge_num a.now b.now }
{
    if !vertex_count_sound(vertex_num) {
        return false;
    }
    if !edge_count_sound(edge_num) {
        return false;
    }
    if ascending_ends(vertex_num, edge_num, a, b) {
        return true;
    }
    if !ends_in_range(vertex_num, edge_num, a, b) {
        return false;
    }
    let n = edge_num as usize;
    if !ends_differ(a, b, n) {
        return false;
    }
    pairs_apart(a, b, n, vertex_num as usize)
}

// Whether the first log_num entries name edges and weights within the Records.
#[tactic(auto, unfolding(crate::specs::Sound::log_sound))]
pub fn log_sound(edge_num: u32, log_num: usize, edges: &[u32], weights: &[Weight]) -> bool
    ensures { result ≡ log_sound edge_num log_num edges.now weights.now }
{
    all_below(edges, log_num, edge_num) && weights_sound(weights, log_num)
}

// Question 6, whether columns are long enough, and question 7 of a code's graph.
#![tactic(auto)]

ghost use Rattle.std.specs.Prelude.{◌≡◌, ◌≤◌, leb};
ghost use Rattle.columns_neighbors.specs.Lists.{sum_to};
ghost use Rattle.columns_room.specs.Room.{two_long, three_long, long_enough, edge_columns_long, lists_long};
ghost use Rattle.columns_room.specs.Graph.{code_graph, graph_long, code_sound};

use columns::questions::boundaries_sound;
use columns_neighbors::sound::graph_sound;

// Of two columns, by their lengths.
#[tactic(auto, unfolding(crate::specs::Room::two_long))]
pub fn two_long(n: usize, a: usize, b: usize) -> bool
    ensures { result ≡ two_long n a b }
{
    n <= a && n <= b
}

// Of three columns, by their lengths.
#[tactic(auto, unfolding(crate::specs::Room::three_long))]
pub fn three_long(n: usize, a: usize, b: usize, c: usize) -> bool
    ensures { result ≡ three_long n a b c }
{
    n <= a && n <= b && n <= c
}

// Question 6 of a new code.
#[tactic(auto, unfolding(crate::specs::Room::long_enough))]
pub fn long_enough(
    vertices: u64,
    edges: u64,
    vertex_room: usize,
    edge_room: usize,
    numbers: usize,
) -> bool
    requires { edges ≤ 1000000000000 }
    ensures { result ≡ long_enough vertices edges vertex_room edge_room numbers }
{
    vertices <= vertex_room as u64 && edges <= edge_room as u64 && 2 * edges <= numbers as u64
}

// Question 6 of the ends and the neighbour numbers.
#[tactic(auto, unfolding(crate::specs::Room::edge_columns_long))]
pub fn edge_columns_long(
    edge_num: u32,
    ends_a: &[u32],
    ends_b: &[u32],
    neighbor_numbers: &[u32],
) -> bool
    ensures { result ≡ edge_columns_long edge_num ends_a.now ends_b.now neighbor_numbers.now }
{
    let n = edge_num as usize;
    two_long(n, ends_a.len(), ends_b.len()) && 2 * n <= neighbor_numbers.len()
}

// Whether the first n lengths, or all where there are fewer, sum to at most the limit.
fn sum_within(lengths: &[u32], n: usize, limit: usize) -> bool
    ensures { result ≡ leb (sum_to n lengths.now) limit }
{
    let mut sum: usize = 0;
    let m = n.min(lengths.len());
    for i in 0..m {
        let more = lengths[i] as usize;
        if limit - sum < more {
            return false;
        }
        sum += more;
    }
    true
}

// Question 6 of the neighbour numbers, or of their scratch, where list lengths are read.
#[tactic(auto, unfolding(crate::specs::Room::lists_long))]
pub fn lists_long(vertex_num: u32, edge_num: u32, lengths: &[u32], numbers: &[u32]) -> bool
    ensures { result ≡ lists_long vertex_num edge_num lengths.now numbers.now }
{
    2 * (edge_num as usize) <= numbers.len()
        && sum_within(lengths, vertex_num as usize, numbers.len())
}

// Question 6, of ends and boundary bytes.
#[tactic(auto, unfolding(crate::specs::Graph::graph_long))]
pub fn graph_long(
    vertex_num: u32,
    edge_num: u32,
    ends_a: &[u32],
    ends_b: &[u32],
    boundary: &[u8],
) -> bool
    ensures { result ≡ graph_long (code_graph vertex_num edge_num ends_a.now ends_b.now boundary.now) }
{
    two_long(edge_num as usize, ends_a.len(), ends_b.len()) && vertex_num as usize <= boundary.len()
}

// Question 7, of counts, ends and boundary bytes.
#[tactic(auto, unfolding(crate::specs::Graph::code_sound))]
pub fn code_sound(
    vertex_num: u32,
    edge_num: u32,
    ends_a: &[u32],
    ends_b: &[u32],
    boundary: &[u8],
) -> bool
    ensures { result ≡ code_sound (code_graph vertex_num edge_num ends_a.now ends_b.now boundary.now) }
{
    graph_sound(vertex_num, edge_num, ends_a, ends_b)
        && boundaries_sound(boundary, vertex_num as usize)
}

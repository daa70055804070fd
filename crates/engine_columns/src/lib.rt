// The engine graph over lent columns, and questions 6 and 7 of it.
#![tactic(auto)]

ghost use Rattle.std.specs.Prelude.{◌≡◌};
ghost use Rattle.engine_columns.specs.Records.{engine_in};
ghost use Rattle.engine_columns.specs.Questions.{columns_long, engine_long, columns_sound, engine_sound};

use columns::Weight;
use columns::questions::{boundaries_sound, has_room, weights_sound};
use columns_neighbors::sound::{graph_sound, log_sound};
use columns_room::three_long;

// How many vertices, edges and log entries the engine's columns hold. A log may hold more entries than there are edges.
#[derive(Clone, Copy)]
pub struct EngineCounts {
    pub vertices: u32,
    pub edges: u32,
    pub entries: usize,
}

// Question 6, of ends, weights and boundary bytes.
#[tactic(auto, unfolding(crate::specs::Questions::columns_long))]
pub fn columns_long(
    vertices: u32,
    edges: u32,
    ends_a: &[u32],
    ends_b: &[u32],
    weights: &[Weight],
    boundary: &[u8],
) -> bool
    ensures { result ≡ columns_long vertices edges ends_a.now ends_b.now weights.now boundary.now }
{
    three_long(edges as usize, ends_a.len(), ends_b.len(), weights.len())
        && vertices as usize <= boundary.len()
}

// Question 6, with room in the log for n entries more.
#[tactic(auto, unfolding(crate::specs::Questions::engine_long))]
pub fn long_enough(
    c: EngineCounts,
    ends_a: &[u32],
    ends_b: &[u32],
    weights: &[Weight],
    boundary: &[u8],
    log_edges: &[u32],
    log_weights: &[Weight],
    n: usize,
) -> bool
    ensures { result ≡ engine_long n (engine_in c ends_a.now ends_b.now weights.now boundary.now log_edges.now log_weights.now) }
{
    columns_long(c.vertices, c.edges, ends_a, ends_b, weights, boundary)
        && has_room(c.entries, n, log_edges.len())
        && has_room(c.entries, n, log_weights.len())
}

// Question 7, of ends, weights and boundary bytes.
#[tactic(auto, unfolding(crate::specs::Questions::columns_sound))]
pub fn columns_sound(
    vertices: u32,
    edges: u32,
    ends_a: &[u32],
    ends_b: &[u32],
    weights: &[Weight],
    boundary: &[u8],
) -> bool
    ensures { result ≡ columns_sound vertices edges ends_a.now ends_b.now weights.now boundary.now }
{
    graph_sound(vertices, edges, ends_a, ends_b)
        && weights_sound(weights, edges as usize)
        && boundaries_sound(boundary, vertices as usize)
}

// Question 7.
#[tactic(auto, unfolding(crate::specs::Questions::engine_sound))]
pub fn engine_sound(
    c: EngineCounts,
    ends_a: &[u32],
    ends_b: &[u32],
    weights: &[Weight],
    boundary: &[u8],
    log_edges: &[u32],
    log_weights: &[Weight],
) -> bool
    ensures { result ≡ engine_sound (engine_in c ends_a.now ends_b.now weights.now boundary.now log_edges.now log_weights.now) }
{
    columns_sound(c.vertices, c.edges, ends_a, ends_b, weights, boundary)
        && log_sound(c.edges, c.entries, log_edges, log_weights)
}

// Codes with probabilities and half weights: `new` and `new_diagonal`.
ghost use Rattle.std.specs.Prelude.{◌≡◌, ◌&&◌};
ghost use Rattle.std.specs.Float.Ieee.{lt};
ghost use Rattle.columns.specs.Places.{zero_float};
ghost use Rattle.columns.specs.Refusals.{question_of};
ghost use Rattle.weights_recipe.specs.Probabilities.{is_probability};
ghost use Rattle.weights_diagonal.specs.Diagonal.{is_diagonal_probability};
ghost use Rattle.weights_calls.specs.Calls.{is_largest_half_weight};
ghost use Rattle.codes_layers.specs.Counts.{edge_num};
ghost use Rattle.codes_layers.specs.Accepts.{Buildable};
ghost use Rattle.codes_calls.specs.CreateCode.{create_refusal};
ghost use Rattle.codes_weights.specs.Steps.{weights_refusal};
ghost use Rattle.codes_calls.specs.Probabilities.{diagonal_of};
ghost use Rattle.codes_calls.specs.NewCode.{WeightedCode, NewCode, NewDiagonal};
ghost use Rattle.codes_calls.specs.WeightedSteps.{DiagonalKind};
ghost use Rattle.codes_calls.specs.Columns.{code_in};

use super::CodeCounts;
use super::create::{create_code, create_questions, shortest_of};
use codes_weights::questions::{largest_weight, weights_questions};
use codes_weights::weigh::{diagonal_p, weigh_edges, weighed};
use columns::Weight;
use columns::refusal::Refusal;
use weights_diagonal::new_diagonal_probability;

// The diagonal probability that `new` gives.
fn diagonal_of(kind: u32, p: f64) -> Option<f64>
    ensures { result ≡ diagonal_of kind p }
{
    if kind == 4 {
        new_diagonal_probability(p)
    } else {
        None
    }
}

// How many edges a code has that questions 2 to 5 accept.
fn edge_count(kind: u32, d: u32, rounds: u32) -> usize
    requires { Buildable kind d rounds }
    ensures { result ≡ edge_num kind d rounds }
{
    codes_layers::counts::edge_num(kind, d, rounds) as usize
}

// The lengths of the columns lent for a code: the shortest vertex column, the shortest edge column, the neighbour numbers.
#[derive(Clone, Copy)]
struct CodeRoom {
    vertices: usize,
    edges: usize,
    numbers: usize,
}

// Questions 2 to 6 and 8 to 10, in order.
fn new_questions(
    kind: u32,
    d: u32,
    rounds: u32,
    p: f64,
    diagonal: Option<f64>,
    max_half_weight: Weight,
    largest: f64,
    room: CodeRoom,
) -> Result<(), Refusal>
    ensures { question_of result ≡ weights_refusal (create_refusal kind d rounds room.vertices room.edges room.numbers) (is_largest_half_weight max_half_weight) (is_probability p && is_diagonal_probability diagonal) (lt zero_float largest) }
{
    create_questions(kind, d, rounds, room.vertices, room.edges, room.numbers)?;
    weights_questions(p, diagonal, max_half_weight, largest)
}

// Builds a code: questions 2 to 6 and 8 to 10, then every column's first places. Question 10 is decided from the two probabilities, before anything is written.
fn build(
    kind: u32,
    d: u32,
    rounds: u32,
    probability: f64,
    diagonal: Option<f64>,
    max_half_weight: Weight,
    ends_a: &mut [u32],
    ends_b: &mut [u32],
    p: &mut [f64],
    pe: &mut [f64],
    half_weight: &mut [Weight],
    erasure: &mut [u8],
    pos_i: &mut [f64],
    pos_j: &mut [f64],
    pos_t: &mut [f64],
    boundary: &mut [u8],
    defect: &mut [u8],
    list_lengths: &mut [u32],
    neighbor_numbers: &mut [u32],
) -> Result<CodeCounts, Refusal>
    requires { DiagonalKind kind diagonal }
    ensures { WeightedCode kind d rounds probability diagonal max_half_weight
        (code_in ends_a.old ends_b.old p.old pe.old half_weight.old erasure.old pos_i.old pos_j.old pos_t.old boundary.old defect.old list_lengths.old neighbor_numbers.old)
        (code_in ends_a.new ends_b.new p.new pe.new half_weight.new erasure.new pos_i.new pos_j.new pos_t.new boundary.new defect.new list_lengths.new neighbor_numbers.new)
        result }
{
    let edge_room = shortest_of(
        ends_a.len(),
        ends_b.len(),
        p.len(),
        pe.len(),
        half_weight.len(),
        erasure.len(),
    );
    let vertex_room = shortest_of(
        pos_i.len(),
        pos_j.len(),
        pos_t.len(),
        boundary.len(),
        defect.len(),
        list_lengths.len(),
    );
    let largest = largest_weight(rounds, probability, diagonal);
    new_questions(
        kind,
        d,
        rounds,
        probability,
        diagonal,
        max_half_weight,
        largest,
        CodeRoom {
            vertices: vertex_room,
            edges: edge_room,
            numbers: neighbor_numbers.len(),
        },
    )?;
    let n = edge_count(kind, d, rounds);
    let straight = weighed(probability, max_half_weight, largest);
    let other = weighed(diagonal_p(probability, diagonal), max_half_weight, largest);
    let made = create_code(
        kind,
        d,
        rounds,
        ends_a,
        ends_b,
        p,
        pe,
        half_weight,
        erasure,
        pos_i,
        pos_j,
        pos_t,
        boundary,
        defect,
        list_lengths,
        neighbor_numbers,
    );
    weigh_edges(
        n,
        ends_a,
        ends_b,
        pos_i,
        pos_j,
        pos_t,
        straight,
        other,
        p,
        half_weight,
    );
    made
}

// Builds a code with probability p at every edge, and p/3 at the diagonal edges of kind 4.
pub fn new(
    kind: u32,
    d: u32,
    rounds: u32,
    probability: f64,
    max_half_weight: Weight,
    ends_a: &mut [u32],
    ends_b: &mut [u32],
    p: &mut [f64],
    pe: &mut [f64],
    half_weight: &mut [Weight],
    erasure: &mut [u8],
    pos_i: &mut [f64],
    pos_j: &mut [f64],
    pos_t: &mut [f64],
    boundary: &mut [u8],
    defect: &mut [u8],
    list_lengths: &mut [u32],
    neighbor_numbers: &mut [u32],
) -> Result<CodeCounts, Refusal>
    ensures { NewCode kind d rounds probability max_half_weight
        (code_in ends_a.old ends_b.old p.old pe.old half_weight.old erasure.old pos_i.old pos_j.old pos_t.old boundary.old defect.old list_lengths.old neighbor_numbers.old)
        (code_in ends_a.new ends_b.new p.new pe.new half_weight.new erasure.new pos_i.new pos_j.new pos_t.new boundary.new defect.new list_lengths.new neighbor_numbers.new)
        result }
{
    build(
        kind,
        d,
        rounds,
        probability,
        diagonal_of(kind, probability),
        max_half_weight,
        ends_a,
        ends_b,
        p,
        pe,
        half_weight,
        erasure,
        pos_i,
        pos_j,
        pos_t,
        boundary,
        defect,
        list_lengths,
        neighbor_numbers,
    )
}

// Builds a code of kind 4 with probability p at every edge, or the diagonal probability at the diagonal edges where it is given.
pub fn new_diagonal(
    d: u32,
    rounds: u32,
    probability: f64,
    max_half_weight: Weight,
    diagonal: Option<f64>,
    ends_a: &mut [u32],
    ends_b: &mut [u32],
    p: &mut [f64],
    pe: &mut [f64],
    half_weight: &mut [Weight],
    erasure: &mut [u8],
    pos_i: &mut [f64],
    pos_j: &mut [f64],
    pos_t: &mut [f64],
    boundary: &mut [u8],
    defect: &mut [u8],
    list_lengths: &mut [u32],
    neighbor_numbers: &mut [u32],
) -> Result<CodeCounts, Refusal>
    ensures { NewDiagonal d rounds probability diagonal max_half_weight
        (code_in ends_a.old ends_b.old p.old pe.old half_weight.old erasure.old pos_i.old pos_j.old pos_t.old boundary.old defect.old list_lengths.old neighbor_numbers.old)
        (code_in ends_a.new ends_b.new p.new pe.new half_weight.new erasure.new pos_i.new pos_j.new pos_t.new boundary.new defect.new list_lengths.new neighbor_numbers.new)
        result }
{
    build(
        4,
        d,
        rounds,
        probability,
        diagonal,
        max_half_weight,
        ends_a,
        ends_b,
        p,
        pe,
        half_weight,
        erasure,
        pos_i,
        pos_j,
        pos_t,
        boundary,
        defect,
        list_lengths,
        neighbor_numbers,
    )
}

// Questions 2 to 5 of document 01, and the calls that count the vertices and edges of a code.
#![tactic(auto)]

ghost use Rattle.std.specs.Prelude.{◌≡◌, ℕ, ◌≤◌};
ghost use Rattle.columns.specs.Refusals.{question_of, question_then};
ghost use Rattle.codes_layers.specs.Accepts.{kind_known, distance_sound, rounds_sound, code_refusal};
ghost use Rattle.codes_questions.specs.Answers.{CountsVertices, CountsEdges, distance_within, rounds_within};

use columns::VERTEX_LIMIT;
use columns::refusal::{Refusal, require};

// Question 2: kind 1 to 6.
#[tactic(auto, unfolding(codes_layers::specs::Accepts::kind_known))]
fn kind_known(kind: u32) -> bool
    ensures { result ≡ kind_known kind }
{
    1 <= kind && kind <= 6
}

// Question 3: d odd, 3 to 4,095.
#[tactic(auto, unfolding(codes_layers::specs::Accepts::distance_sound))]
fn distance_sound(d: u32) -> bool
    ensures { result ≡ distance_sound d }
{
    d % 2 == 1 && 3 <= d && d <= 4095
}

// Question 4: rounds 0 to 4,095, and 0 for kinds 1, 2, 5.
#[tactic(auto, unfolding(codes_layers::specs::Accepts::rounds_sound))]
fn rounds_sound(kind: u32, rounds: u32) -> bool
    ensures { result ≡ rounds_sound kind rounds }
{
    rounds <= 4095 && (rounds == 0 || kind == 3 || kind == 4 || kind == 6)
}

// The distance within the limits that is nearest to the one given.
pub fn distance_within(d: u32) -> u32
    ensures { (3 ≤ result) × (result ≤ 4095) × (3 ≤ d → d ≤ 4095 → result ≡ d) × (result ≡ distance_within d) }
{
    d.clamp(3, 4095)
}

// The rounds within the limits that are nearest to those given.
pub fn rounds_within(rounds: u32) -> u32
    ensures { (result ≤ 4095) × (rounds ≤ 4095 → result ≡ rounds) × (result ≡ rounds_within rounds) }
{
    rounds.min(4095)
}

// Questions 2 to 5 in order. Question 5 is about a count formed in 64 bits.
#[tactic(auto, unfolding(codes_layers::specs::Accepts::code_refusal), using(crate::proofs::Within::distance_least, crate::proofs::Within::distance_most, crate::proofs::Within::rounds_most))]
pub fn code_questions(kind: u32, d: u32, rounds: u32) -> Result<(), Refusal>
    ensures number { question_of result ≡ code_refusal kind d rounds 0 }
    ensures then { (next : ℕ) → question_then result next ≡ code_refusal kind d rounds next }
{
    require(kind_known(kind), Refusal::UnknownKind)?;
    require(distance_sound(d), Refusal::BadDistance)?;
    require(rounds_sound(kind, rounds), Refusal::BadRounds)?;
    let vertices = codes_layers::counts::vertex_num(kind, d, rounds);
    require(vertices <= VERTEX_LIMIT as u64, Refusal::TooManyVertices)
}

// How many vertices a code has.
pub fn vertex_num(kind: u32, d: u32, rounds: u32) -> Result<u32, Refusal>
    ensures { CountsVertices kind d rounds result }
{
    code_questions(kind, d, rounds)?;
    Ok(codes_layers::counts::vertex_num(kind, d, rounds) as u32)
}

// How many edges a code has.
pub fn edge_num(kind: u32, d: u32, rounds: u32) -> Result<u32, Refusal>
    ensures { CountsEdges kind d rounds result }
{
    code_questions(kind, d, rounds)?;
    Ok(codes_layers::counts::edge_num(kind, d, rounds) as u32)
}

// Answers as structs of numbers, and an optional argument from numbers.
ghost use Rattle.std.specs.Prelude.{◌≡◌};
ghost use Rattle.c_reports.specs.Engine.{ReportsEngine, given_end};

use columns::VertexIndex;
use columns::refusal::Refusal;
use engine_columns::EngineCounts;

#[repr(C)]
#[derive(Clone, Copy)]
pub struct EngineReport {
    pub number: u32,
    pub vertices: u32,
    pub edges: u32,
    pub entries: usize,
}

// The counts to go on with.
pub fn engine_report(answer: Result<EngineCounts, Refusal>) -> EngineReport
    ensures { ReportsEngine answer result }
{
    match answer {
        Ok(c) => EngineReport {
            number: 0,
            vertices: c.vertices,
            edges: c.edges,
            entries: c.entries,
        },
        Err(refusal) => EngineReport {
            number: u32::from(refusal),
            vertices: 0,
            edges: 0,
            entries: 0,
        },
    }
}

// The end of a search, if there is one: any byte but 0 says so.
pub fn end_of(has_end: u8, end: u32) -> Option<VertexIndex>
    ensures { result ≡ given_end has_end end }
{
    if has_end == 0 {
        None
    } else {
        Some(VertexIndex(end))
    }
}

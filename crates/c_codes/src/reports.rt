// Answers as structs of numbers.
ghost use Rattle.c_codes.specs.Reports.{ReportsCreated, ReportsWeighed, ReportsVerdict, ReportsTruth};

use c_reports::TwoCounts;
use codes_calls::CodeCounts;
use columns::refusal::Refusal;
use sanity_calls::Finding;

#[repr(C)]
#[derive(Clone, Copy)]
pub struct WeighedReport {
    pub number: u32,
    pub weight: f64,
}

#[repr(C)]
#[derive(Clone, Copy)]
pub struct TruthReport {
    pub number: u32,
    pub value: bool,
}

#[repr(C)]
#[derive(Clone, Copy)]
pub struct VerdictReport {
    pub number: u32,
    pub verdict: u32,
    pub first: u32,
    pub second: u32,
}

// Vertices and edges.
pub fn created_report(answer: Result<CodeCounts, Refusal>) -> TwoCounts
    ensures { ReportsCreated answer result }
{
    match answer {
        Ok(counts) => TwoCounts {
            number: 0,
            first: counts.vertices,
            second: counts.edges,
        },
        Err(refusal) => TwoCounts {
            number: u32::from(refusal),
            first: 0,
            second: 0,
        },
    }
}

// The weight of a probability.
pub fn weighed_report(answer: Result<f64, Refusal>) -> WeighedReport
    ensures { ReportsWeighed answer result }
{
    match answer {
        Ok(weight) => WeighedReport { number: 0, weight },
        Err(refusal) => WeighedReport {
            number: u32::from(refusal),
            weight: 0.0,
        },
    }
}

// A verdict with its values.
pub fn verdict_report(answer: Result<Option<Finding>, Refusal>) -> VerdictReport
    ensures { ReportsVerdict answer result }
{
    let (number, verdict, first, second) = match answer {
        Ok(None) => (0, 0, 0, 0),
        Ok(Some(Finding::Empty)) => (0, 1, 0, 0),
        Ok(Some(Finding::DuplicateEdge(earlier, later))) => (0, 2, earlier.0, later.0),
        Ok(Some(Finding::NoEdges(vertex))) => (0, 3, vertex.0, 0),
        Ok(Some(Finding::EdgeTwice(edge, vertex))) => (0, 4, edge.0, vertex.0),
        Err(refusal) => (u32::from(refusal), 0, 0, 0),
    };
    VerdictReport {
        number,
        verdict,
        first,
        second,
    }
}

// Whether a vertex is virtual or a defect.
pub fn truth_report(answer: Result<bool, Refusal>) -> TruthReport
    ensures { ReportsTruth answer result }
{
    match answer {
        Ok(value) => TruthReport { number: 0, value },
        Err(refusal) => TruthReport {
            number: u32::from(refusal),
            value: false,
        },
    }
}

// The nearest virtual vertex as a struct of numbers.
ghost use Rattle.c_engine.specs.PrebuiltReports.{ReportsBoundary};

use columns::Weight;
use columns::refusal::Refusal;
use prebuilt_calls::nearest::BoundaryVertex;

// `found` is 1 where there is a virtual vertex, 0 where there is none.
#[repr(C)]
#[derive(Clone, Copy)]
pub struct BoundaryReport {
    pub number: u32,
    pub found: u32,
    pub vertex: u32,
    pub weight: Weight,
}

pub fn boundary_report(answer: Result<Option<BoundaryVertex>, Refusal>) -> BoundaryReport
    ensures { ReportsBoundary answer result }
{
    match answer {
        Ok(Some(nearest)) => BoundaryReport {
            number: 0,
            found: 1,
            vertex: nearest.vertex.0,
            weight: nearest.weight,
        },
        Ok(None) => BoundaryReport {
            number: 0,
            found: 0,
            vertex: 0,
            weight: 0,
        },
        Err(refusal) => BoundaryReport {
            number: u32::from(refusal),
            found: 0,
            vertex: 0,
            weight: 0,
        },
    }
}

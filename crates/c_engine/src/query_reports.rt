// A path's answer as a struct of numbers.
ghost use Rattle.c_engine.specs.QueryReports.{ReportsPath};

use c_reports::TwoCounts;
use columns::refusal::Refusal;
use query_paths::PathCounts;

// The path's length and total.
pub fn path_report(answer: Result<PathCounts, Refusal>) -> TwoCounts
    ensures { ReportsPath answer result }
{
    match answer {
        Ok(path) => TwoCounts {
            number: 0,
            first: path.length,
            second: path.total,
        },
        Err(refusal) => TwoCounts {
            number: u32::from(refusal),
            first: 0,
            second: 0,
        },
    }
}

ghost use Rattle.c_reports.specs.Reports.{Reported, ReportsCount};
ghost use Rattle.codes_questions.specs.Answers.{CountsVertices, CountsEdges};

use c_reports::{OneCount, count_report};

// How many vertices a code has: questions 2 to 5.
#[unsafe(no_mangle)]
pub extern "C" fn moldingcress_vertex_num(kind: u32, d: u32, rounds: u32) -> OneCount
    ensures { Reported ReportsCount (CountsVertices kind d rounds) result }
{
    count_report(codes_calls::vertex_num(kind, d, rounds))
}

// How many edges a code has: questions 2 to 5.
#[unsafe(no_mangle)]
pub extern "C" fn moldingcress_edge_num(kind: u32, d: u32, rounds: u32) -> OneCount
    ensures { Reported ReportsCount (CountsEdges kind d rounds) result }
{
    count_report(codes_calls::edge_num(kind, d, rounds))
}

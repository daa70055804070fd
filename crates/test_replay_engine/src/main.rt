// Replays the Rust's answers on small graphs: tables with and without an end, loads and resets. Then six cases that are not the Rust's: document 01's
// examples on the listing's graph (paths, crossings, an erasure, a reset, every weight 1), and refusals on graphs like it. Standard input has the cases as decimal numbers, oracle/README.md says how they and the file stdout were made.
// First the number of cases. A case: vertices, edges, queries; first ends, second ends, weights, boundary bytes; a list of four edges and their
// weights; the queries, three numbers each. A query: 0 source 0, the table; 1 source end, the table up to the end; 2 0 0, load the list as
// erasures; 3 0 0, load the list with its weights; 4 0 0, reset; 5 0 0, crossing; 6 a b, path. Queries after a refused open have the counts that it was asked for.
#![tactic(auto)]

use columns::refusal::Refusal;
use columns::{TableWeight, VertexIndex, Weight};
use engine_columns::EngineCounts;
use query_paths::PathCounts;
use test_numbers::{
    after, at, copy_u8, copy_u32, end_line, narrow_at, read_input, show, show_answer, show_list,
    show_weights, size_at,
};

const VERTICES: usize = 16;

const EDGES: usize = 64;

const ENTRIES: usize = 24;

const NAMED: usize = 4;

// The counts to go on with: a refused call leaves them.
fn counts_after(c: EngineCounts, answer: Result<EngineCounts, Refusal>) -> EngineCounts {
    answer.unwrap_or(c)
}

fn show_engine(rt: &impl Print, answer: Result<EngineCounts, Refusal>) {
    show_answer(rt, answer.map(|_| ()));
}

// No end, or the end that a query names.
fn end_of(kind: u64, end: u32) -> Option<VertexIndex> {
    if kind == 0 {
        None
    } else {
        Some(VertexIndex(end))
    }
}

// The table of a query, from columns that hold marks before it.
fn table(
    rt: &impl Print,
    c: EngineCounts,
    ends_a: &[u32],
    ends_b: &[u32],
    weights: &[Weight],
    boundary: &[u8],
    log_edges: &[u32],
    log_weights: &[Weight],
    kind: u64,
    source: u32,
    end: u32,
) {
    let mut out_weight: [TableWeight; VERTICES] = [7; VERTICES];
    let mut out_previous = [7u32; VERTICES];
    let mut numbers = [0u32; 2 * EDGES];
    let mut list_ends = [0u32; VERTICES];
    let mut status = [0u8; VERTICES];
    let mut weight: [Weight; VERTICES] = [0; VERTICES];
    let mut previous = [0u32; VERTICES];
    let mut node = [0u64; VERTICES];
    let mut leaf = [0u64; VERTICES];
    show_answer(
        rt,
        query_tables::all_edges_with_terminate(
            c,
            ends_a,
            ends_b,
            weights,
            boundary,
            log_edges,
            log_weights,
            VertexIndex(source),
            end_of(kind, end),
            &mut out_weight,
            &mut out_previous,
            &mut numbers,
            &mut list_ends,
            &mut status,
            &mut weight,
            &mut previous,
            &mut node,
            &mut leaf,
        ),
    );
    show_weights(rt, &out_weight, c.vertices as usize);
    show_list(rt, &out_previous, c.vertices as usize);
}

// A refusal's number, or 0 and the crossing weight.
fn show_crossing(rt: &impl Print, answer: Result<Weight, Refusal>) {
    match answer {
        Ok(weight) => show_two(rt, 0, weight),
        Err(refusal) => show(rt, u32::from(refusal) as u64),
    }
    end_line(rt);
}

fn show_two(rt: &impl Print, x: u32, y: u32) {
    show(rt, x as u64);
    show(rt, y as u64);
}

// The crossing weight and the least weights from the left, from a column that holds marks before it.
fn cross(
    rt: &impl Print,
    c: EngineCounts,
    ends_a: &[u32],
    ends_b: &[u32],
    weights: &[Weight],
    boundary: &[u8],
    log_edges: &[u32],
    log_weights: &[Weight],
) {
    let mut out_weight: [TableWeight; VERTICES] = [7; VERTICES];
    let mut numbers = [0u32; 2 * EDGES];
    let mut list_ends = [0u32; VERTICES];
    let mut status = [0u8; VERTICES];
    let mut weight: [Weight; VERTICES] = [0; VERTICES];
    let mut previous = [0u32; VERTICES];
    let mut node = [0u64; VERTICES];
    let mut leaf = [0u64; VERTICES];
    show_crossing(
        rt,
        query_crossings::crossing(
            c,
            ends_a,
            ends_b,
            weights,
            boundary,
            log_edges,
            log_weights,
            &mut out_weight,
            &mut numbers,
            &mut list_ends,
            &mut status,
            &mut weight,
            &mut previous,
            &mut node,
            &mut leaf,
        ),
    );
    show_weights(rt, &out_weight, c.vertices as usize);
}

// A refusal's number, or the path's length and total.
fn show_path(rt: &impl Print, answer: Result<PathCounts, Refusal>) {
    match answer {
        Ok(path) => show_two(rt, path.length, path.total),
        Err(refusal) => show(rt, u32::from(refusal) as u64),
    }
    end_line(rt);
}

// The path from a to b with its steps, from columns that hold marks before it.
fn path(
    rt: &impl Print,
    c: EngineCounts,
    ends_a: &[u32],
    ends_b: &[u32],
    weights: &[Weight],
    boundary: &[u8],
    log_edges: &[u32],
    log_weights: &[Weight],
    a: u32,
    b: u32,
) {
    let mut out_vertices = [7u32; VERTICES];
    let mut out_steps: [Weight; VERTICES] = [7; VERTICES];
    let mut numbers = [0u32; 2 * EDGES];
    let mut list_ends = [0u32; VERTICES];
    let mut status = [0u8; VERTICES];
    let mut weight: [Weight; VERTICES] = [0; VERTICES];
    let mut previous = [0u32; VERTICES];
    let mut node = [0u64; VERTICES];
    let mut leaf = [0u64; VERTICES];
    show_path(
        rt,
        query_paths::get_path(
            c,
            ends_a,
            ends_b,
            weights,
            boundary,
            log_edges,
            log_weights,
            VertexIndex(a),
            VertexIndex(b),
            &mut out_vertices,
            &mut out_steps,
            &mut numbers,
            &mut list_ends,
            &mut status,
            &mut weight,
            &mut previous,
            &mut node,
            &mut leaf,
        ),
    );
    show_list(rt, &out_vertices, c.vertices as usize);
    show_list(rt, &out_steps, c.vertices as usize);
}

// A query that changes nothing.
fn ask(
    rt: &impl Print,
    c: EngineCounts,
    ends_a: &[u32],
    ends_b: &[u32],
    weights: &[Weight],
    boundary: &[u8],
    log_edges: &[u32],
    log_weights: &[Weight],
    kind: u64,
    a: u32,
    b: u32,
) {
    if kind == 5 {
        cross(
            rt,
            c,
            ends_a,
            ends_b,
            weights,
            boundary,
            log_edges,
            log_weights,
        );
    } else if kind == 6 {
        path(
            rt,
            c,
            ends_a,
            ends_b,
            weights,
            boundary,
            log_edges,
            log_weights,
            a,
            b,
        );
    } else {
        table(
            rt,
            c,
            ends_a,
            ends_b,
            weights,
            boundary,
            log_edges,
            log_weights,
            kind,
            a,
            b,
        );
    }
}

// A load or a reset.
fn change(
    c: EngineCounts,
    ends_a: &[u32],
    ends_b: &[u32],
    weights: &mut [Weight],
    boundary: &[u8],
    log_edges: &mut [u32],
    log_weights: &mut [Weight],
    list: &[u32],
    values: &[Weight],
    kind: u64,
) -> Result<EngineCounts, Refusal> {
    if kind == 2 {
        return engine_calls::load_erasures(
            c,
            ends_a,
            ends_b,
            weights,
            boundary,
            log_edges,
            log_weights,
            list,
        );
    }
    if kind == 3 {
        return engine_calls::load_dynamic_weights(
            c,
            ends_a,
            ends_b,
            weights,
            boundary,
            log_edges,
            log_weights,
            list,
            values,
        );
    }
    engine_calls::reset(c, ends_a, ends_b, weights, boundary, log_edges, log_weights)
}

fn is_change(kind: u64) -> bool {
    if kind < 2 {
        return false;
    }
    kind < 5
}

// One query, of three numbers.
fn query(
    rt: &impl Print,
    c: EngineCounts,
    ends_a: &[u32],
    ends_b: &[u32],
    weights: &mut [Weight],
    boundary: &[u8],
    log_edges: &mut [u32],
    log_weights: &mut [Weight],
    list: &[u32],
    values: &[Weight],
    kind: u64,
    a: u32,
    b: u32,
) -> EngineCounts {
    if !is_change(kind) {
        ask(
            rt,
            c,
            ends_a,
            ends_b,
            weights,
            boundary,
            log_edges,
            log_weights,
            kind,
            a,
            b,
        );
        return c;
    }
    let answer = change(
        c,
        ends_a,
        ends_b,
        weights,
        boundary,
        log_edges,
        log_weights,
        list,
        values,
        kind,
    );
    show_engine(rt, answer);
    show_list(rt, weights, c.edges as usize);
    counts_after(c, answer)
}

// The queries of a case, from a place of the numbers on.
fn queries(
    rt: &impl Print,
    numbers: &[u64],
    from: usize,
    count: usize,
    opened: EngineCounts,
    ends_a: &[u32],
    ends_b: &[u32],
    weights: &mut [Weight],
    boundary: &[u8],
    log_edges: &mut [u32],
    log_weights: &mut [Weight],
    list: &[u32],
    values: &[Weight],
) {
    let mut c = opened;
    let mut place = from;
    for _ in 0..count {
        c = query(
            rt,
            c,
            ends_a,
            ends_b,
            weights,
            boundary,
            log_edges,
            log_weights,
            list,
            values,
            at(numbers, place),
            narrow_at(numbers, after(place, 1)),
            narrow_at(numbers, after(place, 2)),
        );
        place = after(place, 3);
    }
}

// One case: opens its graph and goes through its queries.
fn case(rt: &impl Print, numbers: &[u64], from: usize) -> usize {
    let vertices = narrow_at(numbers, from);
    let edges = narrow_at(numbers, after(from, 1));
    let v = size_at(numbers, from);
    let e = size_at(numbers, after(from, 1));
    let count = size_at(numbers, after(from, 2));
    let mut in_a = [0u32; EDGES];
    let mut in_b = [0u32; EDGES];
    let mut in_weights: [Weight; EDGES] = [0; EDGES];
    let mut in_boundary = [0u8; VERTICES];
    let mut list = [0u32; NAMED];
    let mut values: [Weight; NAMED] = [0; NAMED];
    let first_a = after(from, 3);
    let first_b = after(first_a, e);
    let first_weight = after(first_b, e);
    let first_byte = after(first_weight, e);
    let first_named = after(first_byte, v);
    let first_value = after(first_named, NAMED);
    let first_query = after(first_value, NAMED);
    copy_u32(numbers, first_a, &mut in_a, e);
    copy_u32(numbers, first_b, &mut in_b, e);
    copy_u32(numbers, first_weight, &mut in_weights, e);
    copy_u8(numbers, first_byte, &mut in_boundary, v);
    copy_u32(numbers, first_named, &mut list, NAMED);
    copy_u32(numbers, first_value, &mut values, NAMED);
    run(
        rt,
        numbers,
        first_query,
        count,
        vertices,
        edges,
        &in_a,
        &in_b,
        &in_weights,
        &in_boundary,
        &list,
        &values,
    );
    after(first_query, after(count, after(count, count)))
}

// Opens the graph into columns of its own, then the queries.
fn run(
    rt: &impl Print,
    numbers: &[u64],
    first_query: usize,
    count: usize,
    vertices: u32,
    edges: u32,
    in_a: &[u32],
    in_b: &[u32],
    in_weights: &[Weight],
    in_boundary: &[u8],
    list: &[u32],
    values: &[Weight],
) {
    let mut ends_a = [0u32; EDGES];
    let mut ends_b = [0u32; EDGES];
    let mut weights: [Weight; EDGES] = [0; EDGES];
    let mut boundary = [0u8; VERTICES];
    let mut log_edges = [0u32; ENTRIES];
    let mut log_weights: [Weight; ENTRIES] = [0; ENTRIES];
    let answer = engine_calls::open(
        vertices,
        edges,
        in_a,
        in_b,
        in_weights,
        in_boundary,
        &mut ends_a,
        &mut ends_b,
        &mut weights,
        &mut boundary,
    );
    show_engine(rt, answer);
    let asked = EngineCounts {
        vertices,
        edges,
        entries: 0,
    };
    queries(
        rt,
        numbers,
        first_query,
        count,
        counts_after(asked, answer),
        &ends_a,
        &ends_b,
        &mut weights,
        &boundary,
        &mut log_edges,
        &mut log_weights,
        list,
        values,
    );
}

fn replay(rt: &impl Print, numbers: &[u64]) {
    let cases = size_at(numbers, 0);
    let mut place: usize = 1;
    for _ in 0..cases {
        place = case(rt, numbers, place);
    }
}

fn main(rt: HostRuntime) {
    let mut numbers = [0u64; 32768];
    read_input(&rt, &mut numbers);
    replay(&rt, &numbers);
}

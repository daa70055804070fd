// The first vertex without edges or with an edge twice. Where every number is below 32,768, numbers are stamped in a local array. Else lists that ascend
// have no number twice. Else, where no list has more than 96 numbers, or where they have more than 65,536 places together, a number without a stamp is
// compared with those before it in its list; else the last earlier place with the same number is found for each place.
ghost use Rattle.std.specs.Prelude.{◌≡◌, ℕ, ◌+◌, ◌<◌, ◌≤◌, ◌^◌, true, eqb, length, get_or, take, drop};
ghost use Rattle.sanity_verdicts.specs.Sanity.{vertex_numbered, first_of, found_if, twice, at_vertex, lists_finding};
ghost use Rattle.sanity_verdicts.specs.declared.Finding.TheVariants.{NoEdges};
ghost use Rattle.columns_neighbors.specs.Lists.{sum_to};
ghost use Rattle.columns_places.specs.Places.{LastPlaces};
ghost use Rattle.sanity_verdicts.specs.ListSteps.{Seen, Stamped, Below, Ascends};

use super::Finding;
use columns::questions::all_below;
use columns::{EdgeIndex, VertexIndex};
use columns_places::last_places;

// Whether x is one of the first i numbers from place start on.
fn stands_before(numbers: &[u32], start: usize, i: usize, x: EdgeIndex) -> bool
    requires { start + i ≤ length numbers.now }
    ensures { Seen numbers.now start i x.0 result }
{
    let mut seen = false;
    for j in 0..i {
        seen |= numbers[start + j] == x.0;
    }
    seen
}

// The same of the number after the first i: by its stamp where it has one, by the last place with the same number where that is known.
fn is_seen(
    numbers: &[u32],
    start: usize,
    i: usize,
    x: EdgeIndex,
    mark: &[u32],
    stamp: u32,
    last: &[u16],
    known: usize,
) -> bool
    requires i_in_bounds { (start + i < length numbers.now) × (get_or numbers.now (start + i) 0 ≡ x.0) }
    requires stamped { Stamped numbers.now start i stamp mark.now × LastPlaces numbers.now known last.now }
    ensures { Seen numbers.now start i x.0 result }
{
    let at = x.0 as usize;
    if at < mark.len() {
        return mark[at] == stamp;
    }
    let here = start + i;
    if here < known {
        let p = last[here] as usize;
        return (start <= p) & (p < here);
    }
    stands_before(numbers, start, i, x)
}

// Stamps x, the number after the first i.
fn stamp_next(numbers: &[u32], start: usize, i: usize, x: EdgeIndex, mark: &mut [u32], stamp: u32)
    requires stamped { Stamped numbers.now start i stamp mark.old }
    requires i_value { get_or numbers.now (start + i) 0 ≡ x.0 }
    ensures { Stamped numbers.now start (i + 1) stamp mark.new × (length mark.new ≡ length mark.old) }
{
    let at = x.0 as usize;
    if at < mark.len() {
        mark[at] = stamp;
    }
}

// The first number twice in the list of vertex v, which starts at a place and has a length.
#[tactic(auto, using(crate::proofs::Stamping::list_laws))]
fn twice_in(
    numbers: &[u32],
    start: usize,
    len: usize,
    v: VertexIndex,
    mark: &mut [u32],
    last: &[u16],
    known: usize,
) -> Option<Finding>
    requires len_in_bounds { (start + len ≤ length numbers.now) × (v.0 < 4294967295) }
    requires below { Below v.0 mark.old × LastPlaces numbers.now known last.now }
    ensures { (result ≡ twice (take len (drop start numbers.now)) v.0) × Below (v.0 + 1) mark.new × (length mark.new ≡ length mark.old) }
{
    let stamp = v.0 + 1;
    for i in 0..len {
        let x = EdgeIndex(numbers[start + i]);
        if is_seen(numbers, start, i, x, mark, stamp, last, known) {
            return Some(Finding::EdgeTwice(x, v));
        }
        stamp_next(numbers, start, i, x, mark, stamp);
    }
    None
}

// The finding at vertex v.
#[tactic(auto, using(crate::proofs::Stamping::vertex_laws))]
fn at_vertex(
    numbers: &[u32],
    start: usize,
    len: usize,
    v: VertexIndex,
    mark: &mut [u32],
    last: &[u16],
    known: usize,
) -> Option<Finding>
    requires len_in_bounds { (start + len ≤ length numbers.now) × (v.0 < 4294967295) }
    requires below { Below v.0 mark.old × LastPlaces numbers.now known last.now }
    ensures { (result ≡ at_vertex (take len (drop start numbers.now)) len v.0) × Below (v.0 + 1) mark.new × (length mark.new ≡ length mark.old) }
{
    if len == 0 {
        return Some(Finding::NoEdges(v));
    }
    twice_in(numbers, start, len, v, mark, last, known)
}

// The first finding among n vertices; mark holds 0 alone.
#[tactic(auto, using(crate::proofs::Stamping::room_laws, crate::proofs::Stamping::finding_laws), unfolding(columns_neighbors::specs::Lists::sum_to))]
fn vertices_in(
    lengths: &[u32],
    numbers: &[u32],
    n: u32,
    mark: &mut [u32],
    last: &[u16],
    known: usize,
) -> Option<Finding>
    requires n_in_bounds { (n ≤ length lengths.now) × (sum_to n lengths.now ≤ length numbers.now) }
    requires below { Below 0 mark.old × LastPlaces numbers.now known last.now }
    ensures { result ≡ lists_finding n lengths.now numbers.now }
{
    let mut start: usize = 0;
    for v in 0..n {
        let len = lengths[v as usize] as usize;
        let found = at_vertex(numbers, start, len, VertexIndex(v), mark, last, known);
        if found.is_some() {
            return found;
        }
        start += len;
    }
    None
}

// The same by stamps of the numbers below 32,768; of no place the last one with the same number is known.
fn vertices_by_stamps(lengths: &[u32], numbers: &[u32], n: u32) -> Option<Finding>
    requires { (n ≤ length lengths.now) × (sum_to n lengths.now ≤ length numbers.now) }
    ensures { result ≡ lists_finding n lengths.now numbers.now }
{
    let mut mark = [0u32; 32768];
    let last = [0u16; 1];
    vertices_in(lengths, numbers, n, &mut mark, &last, 0)
}

// The same by the last places with the same number, for the first `known` places; only the number 0 has a stamp.
fn vertices_by_places(lengths: &[u32], numbers: &[u32], n: u32, known: usize) -> Option<Finding>
    requires { (n ≤ length lengths.now) × (sum_to n lengths.now ≤ length numbers.now) × (known ≤ length numbers.now) × (known ≤ 65536) }
    ensures { result ≡ lists_finding n lengths.now numbers.now }
{
    let mut last = [0u16; 65536];
    let mut order = [0u16; 65536];
    last_places(numbers, known, &mut last, &mut order);
    let mut mark = [0u32; 1];
    vertices_in(lengths, numbers, n, &mut mark, &last, known)
}

// How many places the lists of n vertices have.
#[tactic(auto, using(columns_neighbors::proofs::Placing::sum_more, columns_neighbors::proofs::Placing::sum_ascends), unfolding(columns_neighbors::specs::Lists::sum_to))]
fn list_places(lengths: &[u32], n: usize) -> usize
    requires { (n ≤ length lengths.now) × (sum_to n lengths.now < 2 ^ 63) }
    ensures { result ≡ sum_to n lengths.now }
{
    let mut sum: usize = 0;
    for i in 0..n {
        sum += lengths[i] as usize;
    }
    sum
}

// Whether the numbers of a list, which starts at a place and has a length, ascend.
fn list_ascends(numbers: &[u32], start: usize, len: usize) -> bool
    requires { start + len ≤ length numbers.now }
    ensures { result ≡ true → Ascends numbers.now start len }
{
    let mut ascends = true;
    for i in 1..len {
        let at = start + i;
        ascends &= numbers[at - 1] < numbers[at];
    }
    ascends
}

// Whether the numbers of each list of n vertices ascend.
#[tactic(auto, using(crate::proofs::Stamping::room_laws), unfolding(columns_neighbors::specs::Lists::sum_to))]
fn lists_ascend(lengths: &[u32], numbers: &[u32], n: usize) -> bool
    requires { (n ≤ length lengths.now) × (sum_to n lengths.now ≤ length numbers.now) }
    ensures { result ≡ true → (u : ℕ) → u < n → Ascends numbers.now (sum_to u lengths.now) (get_or lengths.now u 0) }
{
    let mut start: usize = 0;
    for v in 0..n {
        let len = lengths[v] as usize;
        if !list_ascends(numbers, start, len) {
            return false;
        }
        start += len;
    }
    true
}

// The first vertex without edges.
#[tactic(auto, using(crate::proofs::Scans::first_none, crate::proofs::Scans::first_next))]
fn first_without(lengths: &[u32], n: u32) -> Option<Finding>
    requires { n ≤ length lengths.now }
    ensures { result ≡ first_of n (λ u. found_if (eqb (get_or lengths.now u 0) 0) (NoEdges (vertex_numbered u))) }
{
    for v in 0..n {
        if lengths[v as usize] == 0 {
            return Some(Finding::NoEdges(VertexIndex(v)));
        }
    }
    None
}

// The first finding among n vertices.
#[tactic(auto, using(crate::proofs::Stamping::lists_ascend))]
pub fn vertices_checked(lengths: &[u32], numbers: &[u32], n: u32) -> Option<Finding>
    requires { (n ≤ length lengths.now) × (sum_to n lengths.now ≤ length numbers.now) }
    ensures { result ≡ lists_finding n lengths.now numbers.now }
{
    let places = list_places(lengths, n as usize);
    if all_below(numbers, places, 32768) {
        return vertices_by_stamps(lengths, numbers, n);
    }
    if lists_ascend(lengths, numbers, n as usize) {
        return first_without(lengths, n);
    }
    let short = all_below(lengths, n as usize, 97);
    if !short && places <= 65536 {
        return vertices_by_places(lengths, numbers, n, places);
    }
    vertices_by_stamps(lengths, numbers, n)
}

// How many vertices and edges a code has, formed in 64 bits.
ghost use Rattle.std.specs.Prelude.{◌≡◌, ◌≤◌};
ghost use Rattle.codes_layers.specs.Counts.{layer_vertex_num, vertex_num, layer_edge_num, gap_edge_num, edge_num};

fn layer_vertex_num(kind: u32, d: u64) -> u64
    requires { (3 ≤ d) × (d ≤ 4095) }
    ensures { (result ≡ layer_vertex_num kind d) × (result ≤ 16773120) }
{
    if kind == 1 {
        return d + 1;
    }
    if kind <= 4 {
        return d * (d + 1);
    }
    (d + 1) / 2 * (d + 1)
}

pub fn vertex_num(kind: u32, d: u32, rounds: u32) -> u64
    requires { (3 ≤ d) × ((d ≤ 4095) × (rounds ≤ 4095)) }
    ensures { result ≡ vertex_num kind d rounds }
{
    let layer = layer_vertex_num(kind, d as u64);
    (rounds as u64 + 1) * layer
}

fn layer_edge_num(kind: u32, d: u64) -> u64
    requires { (3 ≤ d) × (d ≤ 4095) }
    ensures { (result ≡ layer_edge_num kind d) × (result ≤ 40000000) }
{
    if kind == 1 {
        return d;
    }
    if kind <= 4 {
        return d * d + (d - 1) * (d - 1);
    }
    d * d
}

fn gap_edge_num(kind: u32, d: u64) -> u64
    requires { (3 ≤ d) × (d ≤ 4095) }
    ensures { (result ≡ gap_edge_num kind d) × (result ≤ 80000000) }
{
    if kind == 3 {
        return d * (d - 1);
    }
    if kind == 4 {
        return d * (d - 1) + d * (d - 2) + (d - 1) * (d - 1) + (d - 1) * (d - 2);
    }
    if kind == 6 {
        return layer_vertex_num(kind, d);
    }
    0
}

pub fn edge_num(kind: u32, d: u32, rounds: u32) -> u64
    requires { (3 ≤ d) × ((d ≤ 4095) × (rounds ≤ 4095)) }
    ensures { (result ≡ edge_num kind d rounds) × (result ≤ 999999999999) }
{
    let layer = layer_edge_num(kind, d as u64);
    let gap = gap_edge_num(kind, d as u64);
    (rounds as u64 + 1) * layer + rounds as u64 * gap
}

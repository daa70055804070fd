// A tree of least keys over the numbers below n, in two lent columns.
#![tactic(auto)]

ghost use Rattle.std.specs.Prelude.{◌≡◌, ◌+◌, ◌<◌, ◌≤◌, length, set};
ghost use Rattle.query_queue.specs.Tree.{place_of, Tree, TreeBut, TreeRoom, Least, Same};

// What stands at place j.
pub fn place(node: &[u64], leaf: &[u64], n: usize, j: usize) -> u64
    requires fact_1 { TreeRoom node.now leaf.now n }
    requires fact_2 { j < n + n }
    requires fact_3 { n ≤ 4096 }
    ensures { result ≡ place_of node.now leaf.now n j }
{
    if j < n {
        return node[j];
    }
    leaf[j - n]
}

// Makes the places from place `from` upwards hold the lesser of their children again, up to the first that holds it already.
fn raise(node: &mut [u64], leaf: &[u64], n: usize, from: usize)
    requires fact_1 { TreeRoom node.old leaf.now n }
    requires fact_2 { from < n }
    requires fact_3 { n ≤ 4096 }
    requires fact_4 { TreeBut node.old leaf.now n from }
    ensures tree { Tree node.new leaf.now n }
    ensures node_len_unchanged { length node.new ≡ length node.old }
{
    let mut i = from;
    // while: the place is halved each turn, and the climb ends at the first place that holds its key already.
    while 0 < i {
        let a = place(node, leaf, n, 2 * i);
        let b = place(node, leaf, n, 2 * i + 1);
        let key = a.min(b);
        if node[i] == key {
            return;
        }
        node[i] = key;
        i = i / 2;
    }
}

// Puts the key of number v.
pub fn put(node: &mut [u64], leaf: &mut [u64], n: usize, v: usize, key: u64)
    requires fact_1 { TreeRoom node.old leaf.old n }
    requires fact_2 { v < n }
    requires fact_3 { n ≤ 4096 }
    requires fact_4 { Tree node.old leaf.old n }
    ensures tree { Tree node.new leaf.new n }
    ensures leaf_after { leaf.new ≡ set leaf.old v key }
    ensures node_len_unchanged { length node.new ≡ length node.old }
{
    leaf[v] = key;
    raise(node, leaf, n, (n + v) / 2);
}

// The least key.
pub fn least(node: &[u64], leaf: &[u64], n: usize) -> u64
    requires fact_1 { TreeRoom node.now leaf.now n }
    requires fact_2 { 0 < n }
    requires fact_3 { n ≤ 4096 }
    requires fact_4 { Tree node.now leaf.now n }
    ensures { Least leaf.now n result }
{
    place(node, leaf, n, 1)
}

// The key that no number has.
pub const NONE: u64 = 18446744073709551615;

// Gives every number below n the key NONE.
pub fn clear(node: &mut [u64], leaf: &mut [u64], n: usize)
    requires fact_1 { TreeRoom node.old leaf.old n }
    requires fact_2 { n ≤ 4096 }
    ensures tree { Tree node.new leaf.new n }
    ensures same { Same leaf.new n 18446744073709551615 }
    ensures node_len_unchanged { length node.new ≡ length node.old }
    ensures leaf_len_unchanged { length leaf.new ≡ length leaf.old }
{
    for i in 0..n {
        node[i] = NONE;
        leaf[i] = NONE;
    }
}

// A vertex column moved: a copy of it is read through the order.
#![tactic(auto)]

ghost use Rattle.std.specs.Prelude.{◌≡◌, ◌≤◌, length};
ghost use Rattle.columns.specs.Lists.{over};
ghost use Rattle.columns.specs.Places.{zero_float};
ghost use Rattle.reorder_orders.specs.Order.{moved};
ghost use Rattle.reorder_orders.specs.Steps.{IsOrder};

use columns::VisualizePosition;
use columns_stores::copy;
use reorder_orders::gather;

fn move_in<T: Copy>(order: &[u32], column: &mut [T], copy: &mut [T])
    requires { IsOrder order.now × (length order.now ≤ length column.old) × (length order.now ≤ length copy.old) }
    ensures { (d : T) → column.new ≡ over (moved order.now d column.old) column.old }
{
    columns_stores::copy(copy, column, order.len());
    gather(order, copy, column);
}

// Moves a column of bytes. move_u8 and move_u32 stay two: a local array of a type parameter needs a bound on the type's size, which no clause states.
pub fn move_u8(order: &[u32], column: &mut [u8])
    requires { IsOrder order.now × (length order.now ≤ length column.old) }
    ensures { column.new ≡ over (moved order.now 0 column.old) column.old }
{
    let mut copy = [0u8; 4096];
    move_in(order, column, &mut copy);
}

// Moves a column of numbers.
pub fn move_u32(order: &[u32], column: &mut [u32])
    requires { IsOrder order.now × (length order.now ≤ length column.old) }
    ensures { column.new ≡ over (moved order.now 0 column.old) column.old }
{
    let mut copy = [0u32; 4096];
    move_in(order, column, &mut copy);
}

// Stores the position that stands at each listed place.
fn gather_positions(
    list: &[u32],
    from_i: &[f64],
    from_j: &[f64],
    from_t: &[f64],
    pos_i: &mut [f64],
    pos_j: &mut [f64],
    pos_t: &mut [f64],
)
    requires { (length list.now ≤ length pos_i.old) × (length list.now ≤ length pos_j.old) × (length list.now ≤ length pos_t.old) }
    ensures pos_i_after { pos_i.new ≡ over (moved list.now zero_float from_i.now) pos_i.old }
    ensures pos_j_after { pos_j.new ≡ over (moved list.now zero_float from_j.now) pos_j.old }
    ensures pos_t_after { pos_t.new ≡ over (moved list.now zero_float from_t.now) pos_t.old }
{
    for (k, place) in list.iter().enumerate() {
        let at = *place as usize;
        let position = VisualizePosition::load(from_i, from_j, from_t, at);
        position.store(pos_i, pos_j, pos_t, k);
    }
}

fn move_positions_in(
    order: &[u32],
    pos_i: &mut [f64],
    pos_j: &mut [f64],
    pos_t: &mut [f64],
    copy_i: &mut [f64],
    copy_j: &mut [f64],
    copy_t: &mut [f64],
)
    requires order { IsOrder order.now × (length order.now ≤ length pos_i.old) × (length order.now ≤ length pos_j.old) × (length order.now ≤ length pos_t.old) }
    requires order_in_bounds { (length order.now ≤ length copy_i.old) × (length order.now ≤ length copy_j.old) × (length order.now ≤ length copy_t.old) }
    ensures pos_i_after { pos_i.new ≡ over (moved order.now zero_float pos_i.old) pos_i.old }
    ensures pos_j_after { pos_j.new ≡ over (moved order.now zero_float pos_j.old) pos_j.old }
    ensures pos_t_after { pos_t.new ≡ over (moved order.now zero_float pos_t.old) pos_t.old }
{
    let n = order.len();
    copy(copy_i, pos_i, n);
    copy(copy_j, pos_j, n);
    copy(copy_t, pos_t, n);
    gather_positions(order, copy_i, copy_j, copy_t, pos_i, pos_j, pos_t);
}

// Moves the positions.
pub fn move_positions(order: &[u32], pos_i: &mut [f64], pos_j: &mut [f64], pos_t: &mut [f64])
    requires { IsOrder order.now × (length order.now ≤ length pos_i.old) × (length order.now ≤ length pos_j.old) × (length order.now ≤ length pos_t.old) }
    ensures pos_i_after { pos_i.new ≡ over (moved order.now zero_float pos_i.old) pos_i.old }
    ensures pos_j_after { pos_j.new ≡ over (moved order.now zero_float pos_j.old) pos_j.old }
    ensures pos_t_after { pos_t.new ≡ over (moved order.now zero_float pos_t.old) pos_t.old }
{
    let mut copy_i = [0.0f64; 4096];
    let mut copy_j = [0.0f64; 4096];
    let mut copy_t = [0.0f64; 4096];
    move_positions_in(
        order,
        pos_i,
        pos_j,
        pos_t,
        &mut copy_i,
        &mut copy_j,
        &mut copy_t,
    );
}

// What a walk finds in the work slice (specs, `Setup`, has the regions): orders, marks, positions by
// order and the series 1, where it begins, and the inner components listed by order.
ghost use Rattle.composition.specs.Setup.{ListIn, InnerListed, PrepareIn, Prepared, RegionsAt};

use counts::Table;
use powers::positions::list_positions;
use product::list::{fill_orders, sort};
use series::write::clear;
use substitution::marks::{Columns, mark_beginnings};
use walk::list_at;

// Where orders, marks and the series 1 stand in the work slice, and where the positions of each
// order begin in the list of those by order.
#[derive(Clone, Copy)]
pub struct Regions {
    pub columns: Columns,
    pub top: usize,
    pub starts: [u32; 12],
}

// Lists the components of the map `inner`, each in a region of its own. The orders of the positions stand from
// word `orders` on. Word o of row k says how many entries of component k have an order of at most o.
pub fn list_all(work: &mut [u32], t: Table, inner: &[u32], orders: usize) -> [[u32; 11]; 8]
    requires { ListIn t.z.n t.z.v t.z.count orders t.words.now inner.now work.old }
    ensures { let z = t.entry.z in InnerListed z.n z.v z.count orders t.entry.words.now inner.now
        work.old work.new result }
{
    let mut ends = [[0; 11]; 8];
    let parts = inner.chunks_exact(t.z.count + 1).take(t.z.v);
    for (k, part) in parts.enumerate() {
        ends[k] = sort(work, t, part, orders, list_at(t.z, k));
    }
    ends
}

// Writes the orders of the positions, the marks of the beginnings of the outer monomials, the
// positions by order, and the series 1, and makes the sums of a multiplication 0. Says where they
// stand.
pub fn prepare(work: &mut [u32], t: Table, outer: &[u32], components: usize) -> Regions
    requires { PrepareIn t.z.n t.z.v t.z.count t.z.codes components t.words.now outer.now work.old }
    ensures prepared { let z = t.entry.z in Prepared z.n z.v z.count z.codes components t.entry.words.now outer.now
        result.starts work.old work.new }
    ensures regions { let z = t.entry.z in RegionsAt z.n z.v z.count result.columns.orders result.columns.marks
        result.top }
{
    let z = t.z;
    let r = z.count + 1;
    let columns = Columns {
        orders: (2 * z.v + 2) * r,
        marks: (2 * z.v + 3) * r,
    };
    let top = (2 * z.v + 4 + z.n) * r;
    fill_orders(work, t, 0, columns.orders);
    mark_beginnings(work, t, columns, outer, components);
    let starts = list_positions(work, t, columns);
    clear(work, 0, 2 * r);
    work[top] = 1;
    work[top + 1] = 65537;
    Regions {
        columns,
        top,
        starts,
    }
}

// A record's children in the order of the looks.
ghost use Rattle.std.specs.Prelude.{◌≡◌, ◌<◌, ◌≤◌};
ghost use Rattle.expr.specs.Record.{slot, child_at};

use storage::entries::Entries;

// Where the child stands that the i-th look goes to: in their order, or the first child last.
fn slot(turned: bool, count: u8, i: u8) -> u8
    requires { (i < count) × (count ≤ 8) }
    ensures { (result ≡ slot turned count i) × (result < 8) }
{
    if turned {
        if i + 1 == count { 0 } else { i + 1 }
    } else {
        i
    }
}

#[inline(always)]
pub fn child_of(children: &Entries, turned: bool, i: u8) -> u8
    requires { (i < children.now.count) × (children.now.count ≤ 8) }
    ensures { result ≡ child_at children.now turned i }
{
    children.nodes[usize::from(slot(turned, children.count, i))]
}

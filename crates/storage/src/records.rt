// What is changed of the stored expressions: an Implode is appended.
ghost use Rattle.std.specs.Prelude.{◌≡◌, ◌<◌, length};
ghost use Rattle.plan.specs.Visit.{implode_over};
ghost use Rattle.storage.specs.Exprs.{ExprStored};

use plan::aexpr::AExpr;

// Record n: an Implode over line q that maintains order. Bytes: the record is counted once it stands there.
pub fn store_implode(recs: &mut [u8; 2048], n: usize, q: u8)
    requires { (n < 128) × (length recs.old ≡ 2048) }
    ensures { ExprStored recs.old n (implode_over q) recs.new }
{
    let b = n * 16;
    recs[b] = u8::from(AExpr::Implode);
    recs[b + 1] = 1;
    recs[b + 2] = 0;
    recs[b + 3] = 1;
    recs[b + 4] = q;
    recs[b + 12] = 1;
}

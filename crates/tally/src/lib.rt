// The counters of visits and looks: the tally is lent to them, and they are the only places that add to it.
#![tactic(auto)]

ghost use Rattle.std.specs.Prelude.{◌≡◌, ◌+◌, ◌<◌, ◌^◌};
ghost use Rattle.plan.specs.Tally.{visit_more, looks_more};

use plan::tally::Tally;

pub fn count_visit(t: &mut Tally)
    requires { t.old.visits + 1 < 2 ^ 64 }
    ensures { t.new ≡ visit_more t.old }
{
    t.visits += 1;
}

// The looks of a visit.
pub fn count_looks(t: &mut Tally, looks: u64)
    requires { t.old.looks + looks < 2 ^ 64 }
    ensures { t.new ≡ looks_more looks t.old }
{
    t.looks += looks;
}

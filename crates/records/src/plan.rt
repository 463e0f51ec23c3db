// LB, n, b, or LC, n, b, 1: the plan, by the rules of 2024 or of 2012.
ghost use Rattle.std.specs.Prelude.{◌≡◌, ◌≤◌, IsTrue, length};
ghost use Rattle.forms.specs.Taken.{taken};
ghost use Rattle.forms.specs.Whole.{whole};
ghost use Rattle.records.specs.Plan.{plan};
ghost use Rattle.records.specs.Sizes.{IsExtent, is_accepted};
ghost use Rattle.records.specs.InBytes.{plan_at, plan_size};

use super::form::stands;
use block::line::Plan;
use forms::Letters;

pub const LB: Letters = Letters {
    first: b'L',
    second: b'B',
};

pub const LC: Letters = Letters {
    first: b'L',
    second: b'C',
};

// The last byte of LC.
pub const RULES_2012: u8 = 1;

// How many bytes LB has, and LC, with their letters.
const LB_SIZE: usize = 4;

const LC_SIZE: usize = 5;

// How many bytes the plan takes; None where it does not stand there, and for another last byte in LC.
pub fn take_plan(s: &[u8]) -> Option<usize>
    ensures { IsExtent (taken plan s.now) s.now result }
{
    if stands(s, LB, 2) {
        return Some(LB_SIZE);
    }
    if stands(s, LC, 3) && s[4] == RULES_2012 {
        return Some(LC_SIZE);
    }
    None
}

// Whether the bytes are the record of a plan and nothing after it.
pub fn is_plan(bytes: &[u8]) -> bool
    ensures value { result ≡ is_accepted (whole plan bytes.now) }
    ensures long { IsTrue result → 4 ≤ length bytes.now }
{
    take_plan(bytes) == Some(bytes.len())
}

// The plan that a record says: its second letter says the edition.
pub fn plan_in(lb: &[u8]) -> Plan
    requires { 4 ≤ length lb.now }
    ensures { result ≡ plan_at lb.now }
{
    Plan {
        sections: lb[2],
        frontier: lb[3],
        rules2012: lb[1] == LC.second,
    }
}

// How many bytes the record of a plan has, with its letters.
pub fn plan_size(p: Plan) -> usize
    ensures { result ≡ plan_size p }
{
    if p.rules2012 {
        return LC_SIZE;
    }
    LB_SIZE
}

//! Calls with each allocation failing in turn.

use crate::by_number::asked_with_one_refused;
use crate::desks::AMPLE;
use crate::leases::calls_with_one_refused;
use crate::scripts::script_with_one_refused;
use crate::serving::planned::planned_with_one_refused;
use kfs_test_support::refusing::Refusing;
use std::alloc::Global;

/// More allocations than any of these asks for.
const MANY: u64 = 400;

/// What is made with an allocation failing.
#[derive(Clone, Copy, Debug)]
enum Case {
    LeaseByNumber,
    CallsBesideACopy,
    Script,
    PiecesAndPlan,
}

/// Makes it with only the allocation of this index failing. Answers whether there was such an allocation; none where the
/// outcome is wrong.
fn made_with_one_refused(heap: &Refusing<Global>, case: Case, growth: u64) -> Option<bool> {
    match case {
        Case::LeaseByNumber => asked_with_one_refused(heap, heap, growth),
        Case::CallsBesideACopy => calls_with_one_refused(heap, heap, growth),
        Case::Script => script_with_one_refused(heap, heap, growth),
        Case::PiecesAndPlan => planned_with_one_refused(heap, heap, growth),
    }
}

/// The same with a heap of its own.
fn made_once(alloc: Global, case: Case, growth: u64) -> Option<bool> {
    let heap = Refusing::new(alloc, AMPLE);
    made_with_one_refused(&heap, case, growth)
}

/// How many allocations it asks for, each refused in turn; or as an error the index of one at which
/// the outcome is wrong.
fn growths(alloc: Global, case: Case) -> Result<u64, u64> {
    for growth in 0..MANY {
        match made_once(alloc, case, growth) {
            Some(true) => {}
            Some(false) => return Ok(growth),
            None => return Err(growth),
        }
    }
    Err(MANY)
}

/// Each case, and how many allocations it asks for at least.
const CASES: [(Case, u64); 4] = [
    (Case::LeaseByNumber, 1),
    (Case::CallsBesideACopy, 11),
    (Case::Script, 6),
    (Case::PiecesAndPlan, 2),
];

#[test]
fn each_growth_refused(rt: HostRuntime) {
    for (case, least) in CASES {
        let count = growths(rt.alloc(), case);
        assert!(rt;
            matches!(count, Ok(asked) if least <= asked),
            "{case:?} {count:?}"
        );
    }
}

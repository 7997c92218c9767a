//! The check of an image with one allocation failing. What it finds is in `fsck`, which asks the same.

use kfs_shape::{Finding, ShapeFault, check_shape};
use kfs_test_support::images::broken::{RIGHT, broken};
use kfs_test_support::images::small::{SmallImage, image};
use kfs_test_support::refusing::Refusing;
use std::alloc::Allocator;
use std::process::Abort;

/// More allocations than a check asks for.
const MANY: u64 = 2000;

/// The answer of the check of these rows with one allocation failing.
fn told<B: Allocator>(
    heap: &Refusing<B>,
    parts: &[SmallImage],
    growth: u64,
) -> Option<Result<(), ShapeFault>> {
    let raw = image(heap, parts)?;
    heap.refuse_after(growth);
    Some(check_shape(heap, &raw))
}

/// Whether the answer is this, or, if an allocation failed, that memory ran out.
fn is_as_due(
    answer: Option<Result<(), ShapeFault>>,
    due: Result<(), ShapeFault>,
    has_refused: bool,
) -> bool {
    answer == Some(due) || (has_refused && answer == Some(Err(ShapeFault::OutOfMemory)))
}

/// How many allocations the check of the rows asks for, each refused in turn.
fn growths(
    rt: &(impl Abort + AllocGlobal),
    parts: &[SmallImage],
    due: Result<(), ShapeFault>,
) -> u64 {
    for growth in 0..MANY {
        let heap = Refusing::new(rt.alloc(), MANY);
        let answer = told(&heap, parts, growth);
        assert!(rt; is_as_due(answer, due, heap.has_refused()), "{growth}");
        if !heap.has_refused() {
            return growth;
        }
    }
    MANY
}

#[test]
fn each_growth_refused_in_turn(rt: HostRuntime) {
    let of_a_right_one = growths(&rt, &[RIGHT], Ok(()));
    assert!(&rt;
        5 < of_a_right_one && of_a_right_one < MANY,
        "{of_a_right_one}"
    );
    let shared = Finding {
        rule: 10,
        number: 101,
    };
    let parts = broken(9, 9);
    let of_the_last_rule = growths(&rt, &parts, Err(ShapeFault::Found(shared)));
    assert!(&rt;
        5 < of_the_last_rule && of_the_last_rule < MANY,
        "{of_the_last_rule}"
    );
}

//! Three dining philosophers, a class held twice, and two orders that a third one joins.
ghost use Rattle.std.specs.Prelude.{◌≡◌, ◌<◌};
ghost use Rattle.std.specs.List.{All};

use lock_model::ClassNo;
use std::test::Fail;
use witness_orders::Orders;

const A: ClassNo = ClassNo(0);

const B: ClassNo = ClassNo(1);

const C: ClassNo = ClassNo(2);

const D: ClassNo = ClassNo(3);

const LAST: ClassNo = ClassNo(63);

// Learns the order of an acquisition. Where it is refused, the held class that is named.
fn refused(orders: &mut Orders, held: &[ClassNo], wanted: ClassNo) -> Option<ClassNo>
    requires classes { orders.old.classes ≡ 64 }
    requires held { All (λ h. h.0 < 64) held.now }
    requires wanted { wanted.0 < 64 }
    ensures { orders.new.classes ≡ 64 }
{
    if let Err(reversal) = orders.check(held, wanted) {
        return Some(reversal.held);
    }
    orders.admit(held, wanted);
    None
}

#[test]
fn reversals_are_refused(rt: HostRuntime) -> Result<(), Fail> {
    let mut orders = Orders::make(rt.alloc(), 64)?;
    assert!(rt; refused(&mut orders, &[A], B) == None);
    assert!(rt; refused(&mut orders, &[C], LAST) == None);
    assert!(rt; refused(&mut orders, &[B], C) == None);
    // Each philosopher takes the fork on its left and then the one on its right, and this is the third.
    assert!(rt; refused(&mut orders, &[C], A) == Some(C));
    // The first held class that forbids is named, and not the one gained last.
    assert!(rt; refused(&mut orders, &[LAST, B], A) == Some(LAST));
    assert!(rt; refused(&mut orders, &[], LAST) == None);
    assert!(rt; refused(&mut orders, &[D, LAST], LAST) == Some(LAST));
    assert!(rt; orders.path(A, C) && orders.path(A, LAST));
    assert!(rt; !orders.path(C, A) && !orders.path(D, LAST) && !orders.path(LAST, LAST));
    Ok(())
}

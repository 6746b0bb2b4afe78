//! A list that keeps its values in their order.

use plan_model::Sequence;
use std::test::Fail;

#[test]
fn keeps_values_in_order(rt: HostRuntime) -> Result<(), Fail> {
    let list = Sequence::from_vec([3, 1, 2].to_vec(rt.alloc())?);
    assert_eq!(rt; list.len(), 3);
    assert!(rt; !list.is_empty());
    assert_eq!(rt; list.as_slice(), [3, 1, 2].as_slice());
    assert_eq!(rt; list.into_vec().as_slice(), [3, 1, 2].as_slice());
    Ok(())
}

//! What a sink keeps of a call.

use heap_calls::PurgeSink;
use res_calls::Purges;
use std::alloc::AllocError;

#[test]
fn what_is_offered_is_kept_once_it_is_committed(rt: HostRuntime) -> Result<(), AllocError> {
    let mut purges = Purges::new(rt.alloc(), true);
    purges.offer(1, b"a")?;
    purges.commit();
    purges.offer(2, b"b")?;
    assert_eq!(rt; purges.into_told().len(), 1);
    Ok(())
}

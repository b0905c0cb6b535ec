// What no clause says of the queue: that it is made where there is memory.
use recalc_workers::Jobs;
use std::test::Fail;

#[test]
fn new_jobs_have_none_to_take(rt: HostRuntime) -> Result<(), Fail> {
    let (jobs, mut hand) = Jobs::new(rt.alloc(), 3, 2)?;
    let told = (jobs.rows(), jobs.cols(), jobs.take(&rt, &mut hand));
    assert_eq!(rt; told, (3, 2, None));
    Ok(())
}

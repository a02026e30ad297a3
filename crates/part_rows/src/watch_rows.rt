use lt_isa::Event;
use processor::{Leaves, ListWatch, NoWatch, PlainBank, Watch, WatchFailed, paths_told};
use std::alloc::Global;
use std::test::Fail;

/// A watcher that has received a read of plain memory, an oblivious access and its path.
fn told(alloc: Global) -> Result<ListWatch, Fail> {
    let mut watch = ListWatch::new(alloc, [3].to_vec(alloc)?, 2, 2)?;
    watch.seen(0, &Event::RamRead(4, [-5, 6].as_slice()))?;
    watch.seen(634, &Event::Oram(2))?;
    watch.path(634, 2, &Leaves::none())?;
    Ok(watch)
}

#[test]
fn what_is_told_is_kept_and_a_call_fails_where_it_has_to(rt: HostRuntime) -> Result<(), Fail> {
    let mut watch = told(rt.alloc())?;
    assert!(rt; watch.len() == 2 && watch.paths().len() == 1);
    assert_eq!(rt; watch.stamp(1), 634);
    assert_eq!(rt; watch.event(0), Event::RamRead(4, [-5, 6].as_slice()));
    assert_eq!(rt; watch.event(1), Event::Oram(2));
    assert_eq!(rt; watch.path(635, 2, &Leaves::none()), Err(WatchFailed));
    Ok(())
}

#[test]
fn room_is_not_passed(rt: HostRuntime) -> Result<(), Fail> {
    let alloc = rt.alloc();
    let mut full = ListWatch::new(alloc, Vec::new(alloc), 1, 1)?;
    let seen = full.seen(0, &Event::RamWrite(0, [1, 2].as_slice()));
    assert_eq!(rt; (seen, full.len()), (Err(WatchFailed), 0));
    Ok(())
}

#[test]
fn nothing_fails_where_nobody_watches(rt: HostRuntime) {
    let mut none = NoWatch::new();
    assert_eq!(rt; none.seen(3, &Event::EncRead(1)), Ok(()));
    assert_eq!(rt; none.path(3, 2, &Leaves::none()), Ok(()));
}

#[test]
fn the_laws_of_paths_hold_of_a_plain_list(_rt: HostRuntime) {
    paths_told::<PlainBank>();
}

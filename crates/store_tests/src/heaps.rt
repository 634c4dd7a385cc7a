//! Both heaps.
use crate::calls::{keeps_sizes_apart, uses_again, uses_each_once, writes_one_word};
use slot_heap::ReuseStore;
use std::test::Fail;
use word_heap::WordStore;

#[test]
fn values_in_used_slots(rt: HostRuntime) -> Result<(), Fail> {
    let mut store = ReuseStore::new(rt.alloc());
    assert!(rt; uses_again(&mut store)?);
    Ok(())
}

#[test]
fn numbers_in_used_slots(rt: HostRuntime) -> Result<(), Fail> {
    let mut store = WordStore::new(rt.alloc());
    assert!(rt; uses_again(&mut store)?);
    Ok(())
}

#[test]
fn one_value_is_written(rt: HostRuntime) -> Result<(), Fail> {
    let mut store = ReuseStore::new(rt.alloc());
    assert!(rt; writes_one_word(&mut store)?);
    Ok(())
}

#[test]
fn one_number_is_written(rt: HostRuntime) -> Result<(), Fail> {
    let mut store = WordStore::new(rt.alloc());
    assert!(rt; writes_one_word(&mut store)?);
    Ok(())
}

#[test]
fn slots_of_values_have_sizes(rt: HostRuntime) -> Result<(), Fail> {
    let mut store = ReuseStore::new(rt.alloc());
    assert!(rt; keeps_sizes_apart(&mut store)?);
    Ok(())
}

#[test]
fn slots_of_numbers_have_sizes(rt: HostRuntime) -> Result<(), Fail> {
    let mut store = WordStore::new(rt.alloc());
    assert!(rt; keeps_sizes_apart(&mut store)?);
    Ok(())
}

#[test]
fn slots_of_values_are_used_once(rt: HostRuntime) -> Result<(), Fail> {
    let mut store = ReuseStore::new(rt.alloc());
    assert!(rt; uses_each_once(&mut store)?);
    Ok(())
}

#[test]
fn slots_of_numbers_are_used_once(rt: HostRuntime) -> Result<(), Fail> {
    let mut store = WordStore::new(rt.alloc());
    assert!(rt; uses_each_once(&mut store)?);
    Ok(())
}

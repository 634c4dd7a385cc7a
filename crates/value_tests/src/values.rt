//! Handles, and the sorts of values.
use run_values::{Handle, Kind, Value};

#[test]
fn handles(rt: HostRuntime) {
    let first = Handle::new(0);
    let last = Handle::new(4_611_686_018_427_387_903);
    let copy = last;
    assert!(rt; first.number() == 0);
    assert!(rt; last.number() == 4_611_686_018_427_387_903);
    assert!(rt; copy == last);
    assert!(rt; first != last);
}

#[test]
fn sorts(rt: HostRuntime) {
    let cell = Value::Cell(Handle::new(3));
    assert!(rt; Value::Int(-1).kind() == Kind::Int);
    assert!(rt; Value::Enum(1).kind() == Kind::Enum);
    assert!(rt; Value::Null.kind() == Kind::Access);
    assert!(rt; cell.kind() == Kind::Access);
    assert!(rt; cell != Value::Null);
    assert!(rt; cell != Value::Cell(Handle::new(4)));
    assert!(rt; Value::Int(1) != Value::Enum(1));
}

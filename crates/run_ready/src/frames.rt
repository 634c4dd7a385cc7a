//! Whether the subprograms of a program are as calls ask.
ghost use Rattle.std.specs.Prelude.{◌≡◌};
ghost use Rattle.std.specs.List.{list_all};
ghost use Rattle.run_ready.specs.Tests as spec;
ghost use Rattle.run_ready.specs.Tests.{ascend, frames_fit};

use flow_paths::{Instr, LaidSub};
use laid_program::Laid;
use typed_tree::{Object, ObjectKind};

/// Whether each of some numbers is greater than those before it.
fn are_ascending(numbers: &[u32]) -> bool
    ensures { result ≡ ascend 0 numbers.now }
{
    let mut low = 0u64;
    'numbers: for number in numbers {
        let number = u64::from(*number);
        if number < low {
            return false;
        }
        low = number + 1;
    }
    true
}

/// Whether an object belongs to no package.
fn is_outside(objects: &[Object], x: u32) -> bool
    ensures { result ≡ spec.is_outside objects.now x }
{
    match objects.get(x as usize) {
        Some(object) => object.package.is_none() || matches!(object.kind, ObjectKind::TextIo),
        None => true,
    }
}

/// Whether no object does.
fn are_outside(objects: &[Object], xs: &[u32]) -> bool
    ensures { result ≡ list_all (spec.is_outside objects.now) xs.now }
{
    xs.iter().all(|x| is_outside(objects, *x))
}

/// Whether this is one of so many subprograms, and not that of the package objects.
fn is_called(subs: usize, n: u32) -> bool
    ensures { result ≡ spec.is_called subs n }
{
    0 < n && (n as usize) < subs
}

/// Whether what an instruction calls is one of so many subprograms.
fn call_stands(subs: usize, instr: &Instr) -> bool
    ensures { result ≡ spec.call_stands subs instr.now }
{
    match instr {
        Instr::Call { sub, .. } => is_called(subs, *sub),
        _ => true,
    }
}

/// Whether what a subprogram calls is one of so many subprograms.
fn sub_calls(subs: usize, sub: &LaidSub) -> bool
    ensures { result ≡ spec.sub_calls subs sub.now }
{
    sub.points
        .as_slice()
        .iter()
        .all(|point| call_stands(subs, &point.instr))
}

/// Whether what all subprograms call is one of so many.
fn all_call(count: usize, subs: &[LaidSub]) -> bool
    ensures { result ≡ list_all (spec.sub_calls count) subs.now }
{
    subs.iter().all(|sub| sub_calls(count, sub))
}

/// Whether a subprogram has formals that are different objects, none of packages, and a point.
fn sub_enters(objects: &[Object], sub: &LaidSub) -> bool
    ensures { result ≡ spec.sub_enters objects.now sub.now }
{
    let formals = sub.formals.as_slice();
    are_ascending(formals) && are_outside(objects, formals) && !sub.points.is_empty()
}

/// Whether all of some subprograms do.
fn all_enter(objects: &[Object], subs: &[LaidSub]) -> bool
    ensures { result ≡ list_all (spec.sub_enters objects.now) subs.now }
{
    subs.iter().all(|sub| sub_enters(objects, sub))
}

/// Whether all but the first one do, which declares the package objects.
fn subs_enter(objects: &[Object], subs: &[LaidSub]) -> bool
    ensures { result ≡ spec.subs_enter objects.now subs.now }
{
    match subs.split_first() {
        Some((first, rest)) => {
            are_ascending(first.formals.as_slice()) && all_enter(objects, rest)
        }
        None => true,
    }
}

/// Whether the main procedure is one of so many subprograms.
fn main_fits(subs: usize, main: Option<u32>) -> bool
    ensures { result ≡ spec.main_fits subs main }
{
    match main {
        Some(n) => is_called(subs, n),
        None => true,
    }
}

/// Whether all that may be called has points, and formals that are different objects, none of
/// packages.
pub fn are_fit(laid: &Laid) -> bool
    ensures { result ≡ frames_fit laid.now }
{
    let subs = laid.subs.as_slice();
    let count = subs.len();
    all_call(count, subs)
        && subs_enter(laid.objects.as_slice(), subs)
        && main_fits(count, laid.main)
}

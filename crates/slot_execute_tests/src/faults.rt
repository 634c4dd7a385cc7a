//! Outputs that fail while a program runs.
use crate::program::{NONE, run};
use run_results::ExecFault;
use std::test::Fail;

const WRITES: &str =
    "with Ada.Text_IO; use Ada.Text_IO;\nprocedure M is\nbegin Put_Line (\"one\"); end M;\n";

const LEAKS: &str =
    "procedure M is type P is access Integer; X : P := new Integer'(1); begin null; end M;";

#[test]
fn failing_outputs(rt: HostRuntime) -> Result<(), Fail> {
    let alloc = rt.alloc();
    let writes = run(alloc, WRITES, "", 100, (0, NONE))?;
    assert!(rt; writes.is("", "", Err(ExecFault::WriteFault), 0));
    let leaks = run(alloc, LEAKS, "", 100, (NONE, 0))?;
    assert!(rt; leaks.is("", "", Err(ExecFault::WriteFault), 1));
    Ok(())
}

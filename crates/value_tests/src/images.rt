//! Images, as Ada writes them.
use run_values::image;
use std::test::Fail;

const IMAGES: [(i32, &str); 7] = [
    (0, " 0"),
    (7, " 7"),
    (-7, "-7"),
    (10, " 10"),
    (-100, "-100"),
    (2_147_483_647, " 2147483647"),
    (-2_147_483_648, "-2147483648"),
];

#[test]
fn images(rt: HostRuntime) -> Result<(), Fail> {
    for row in &IMAGES {
        let (value, want) = *row;
        let text = image(rt.alloc(), value)?;
        assert!(rt; text.as_slice() == want.as_bytes(), "{want}");
    }
    Ok(())
}

//! The texts of a made case.
use big_case::make_case;
use std::test::Fail;

#[test]
fn case_7_has_its_lines(rt: HostRuntime) -> Result<(), Fail> {
    let case = make_case(rt.alloc(), 7)?;
    let tables = std::str::from_utf8(case.tables.as_slice())?;
    assert!(rt;
        tables.contains(
            "{\"name\":\"N0\",\"use\":\"alt\",\"at\":[[\"PA7\",2],[\"PA8\",2]]},\n{\"name\":\"N1\",\"use\":\"alt\",\"at\":[[\"PA9\",2],[\"PA10\",2]]},\n"
        )
    );
    let project = std::str::from_utf8(case.project.as_slice())?;
    assert!(rt; project.contains("Mcu.Pin95=PG15\nPG15.Signal=OUT\nRCC."));
    assert!(rt; project.contains("Mcu.Pin12=PA12\nPA12.Signal=S12\nMcu.Pin13=PH0\n"));
    Ok(())
}

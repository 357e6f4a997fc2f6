use report_command::site_report::Report;
use site_config::read;
use std::test::Fail;

const CONFIG: &str = "\
[grid]
classes = 16
width = 2
low = -8000
reference = 8
[[gauge]]
name = \"G1\"
file = \"g1.sgrc\"
num = 1000
";

#[test]
fn the_memory_of_a_report_is_taken_at_once(rt: HostRuntime) -> Result<(), Fail> {
    let config = read(rt.alloc(), CONFIG.as_bytes()).expect(&rt, "it is sound");
    let report = Report::new(rt.alloc(), &config)?;
    let _ = report;
    Ok(())
}

// A load that is run; scripts that are run in a world, and from a source.
use std::test::Fail;
use ty_load::load;

mod reports;
mod rows;
mod worlds;

const SUMMARY: &str = "load 1
crumbs 200
pairs 1744
client 1 at 200 1744
client 2 at 200 1744
client 3 at 200 1744
client 4 at 200 1744
client 5 at 200 1744
client 6 at 200 1744
client 7 at 200 1744
client 8 at 200 1744
";

#[test]
fn each_run_of_a_load_tells_the_same(rt: HostRuntime) -> Result<(), Fail> {
    let alloc = rt.alloc();
    for _ in 0..2 {
        let text = load(alloc, 1)?;
        assert_eq!(rt; text.as_str(), SUMMARY);
    }
    Ok(())
}

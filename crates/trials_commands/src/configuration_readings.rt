use outside::BytesSource;
use site_config::{ConfigFault, Key, KeyName, MAX_BYTES, Part};
use status::Status;
use status::config_reading::read_config;
use std::alloc::{AllocError, Global};
use std::test::Fail;

const WHOLE: &str =
    "[grid]\nclasses = 16\nwidth = 2\nlow = -8000\nreference = 8\n[[gauge]]\nname = \"G1\"\nfile = \"g1.sgrc\"\nnum = 1000\n";

// A source of so many blanks and of this text, 7 bytes in one take.
fn source_of(
    alloc: Global,
    blanks: usize,
    text: &str,
    failing: &[u64],
) -> Result<BytesSource, AllocError> {
    let mut bytes = vec![in alloc; b' '; blanks]?;
    bytes.extend_from_slice(text.as_bytes())?;
    Ok(BytesSource::new(bytes, 7, failing.to_vec(alloc)?))
}

#[test]
fn a_configuration_is_read_by_small_takes(rt: HostRuntime) -> Result<(), Fail> {
    let mut source = source_of(rt.alloc(), 0, WHOLE, &[])?;
    let config = read_config(rt.alloc(), &mut source).expect(&rt, "it is sound");
    assert_eq!(rt; config.gauges.as_slice().len(), 1);
    assert_eq!(rt; (config.block, config.workers), (1024, 4));
    Ok(())
}

// So many blanks, a text, the take that fails, and the answer.
#[test]
fn what_is_refused(rt: HostRuntime) -> Result<(), Fail> {
    let no_grid = Key {
        part: Part::Grid,
        index: 0,
        name: KeyName::Itself,
    };
    let table = [
        (0, "", 99_999, Status::Config(ConfigFault::Missing(no_grid))),
        (
            MAX_BYTES,
            "",
            99_999,
            Status::Config(ConfigFault::Missing(no_grid)),
        ),
        (MAX_BYTES, " ", 99_999, Status::Config(ConfigFault::TooLong)),
        (0, "[[", 99_999, Status::Config(ConfigFault::NotToml)),
        (0, WHOLE, 0, Status::ReadFault),
        (0, WHOLE, 3, Status::ReadFault),
    ];
    for (blanks, text, failing, status) in table {
        let mut source = source_of(rt.alloc(), blanks, text, &[failing])?;
        assert_eq!(rt; read_config(rt.alloc(), &mut source).err(), Some(status));
    }
    Ok(())
}

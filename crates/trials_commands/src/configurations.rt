use calibration::{Items, Setup};
use site_config::{ConfigFault, Gauge, Key, KeyName, NamedDetail, Part, read};
use std::process::Abort;
use std::test::Fail;

/// A whole configuration.
const WHOLE: &str =
    "[grid]\nclasses = 16\nwidth = 2\nlow = -8000\nreference = 8\n[count]\nblock = 4\nworkers = 2\n[[gauge]]\nname = \"G1\"\nfile = \"g1.sgrc\"\nnum = 1000\n[[detail]]\nname = \"weld\"\ngauge = \"G1\"\nkind = \"normal\"\ncategory = 71\ngamma = 100\n";

/// Its parts.
const GRID: &str = "[grid]\nclasses = 16\nwidth = 2\nlow = -8000\nreference = 8\n";

const COUNT: &str = "[count]\nblock = 4\nworkers = 2\n";

const GAUGE: &str = "[[gauge]]\nname = \"G1\"\nfile = \"g1.sgrc\"\nnum = 1000\n";

const DETAIL: &str =
    "[[detail]]\nname = \"weld\"\ngauge = \"G1\"\nkind = \"normal\"\ncategory = 71\ngamma = 100\n";

/// 33 letters.
const LONG_NAME: &str = "name = \"abcdefghijklmnopqrstuvwxyzabcdefg\"";

const fn key(part: Part, index: u16, name: KeyName) -> Key {
    Key { part, index, name }
}

const fn grid(name: KeyName) -> Key {
    key(Part::Grid, 0, name)
}

const fn count(name: KeyName) -> Key {
    key(Part::Count, 0, name)
}

const fn gauge(name: KeyName) -> Key {
    key(Part::Gauge, 0, name)
}

const fn detail(name: KeyName) -> Key {
    key(Part::Detail, 0, name)
}

fn fault_of<R: AllocGlobal>(rt: &R, text: &str) -> Option<ConfigFault> {
    read(rt.alloc(), text.as_bytes()).err()
}

// What stands in the whole configuration, what stands there instead, and the fault.
fn check<R: Abort + AllocGlobal>(rt: &R, table: &[(&str, &str, ConfigFault)]) -> Result<(), Fail> {
    for (old, new, fault) in table {
        assert!(rt; WHOLE.contains(*old), "{old} is not there");
        let text = WHOLE.replacen(rt.alloc(), *old, *new, 1)?;
        assert_eq!(rt; fault_of(rt, text.as_str()), Some(*fault), "{old} as {new}");
    }
    Ok(())
}

fn assert_setup(rt: &impl Abort, setup: &Setup) {
    let grid = setup.grid;
    assert_eq!(rt; (grid.classes(), grid.w2()), (16, 2));
    assert_eq!(rt; (grid.low_kpa(), grid.reference()), (-8000, 8));
    assert_eq!(rt; setup.gains.as_slice().len(), 1);
    let gain = setup.gains.as_slice()[0];
    assert_eq!(rt; (gain.num(), gain.den(), gain.offset()), (1000, 1, 0));
}

fn assert_gauge(rt: &impl Abort, gauges: &Items<Gauge>) {
    assert_eq!(rt; gauges.as_slice().len(), 1);
    let gauge = &gauges.as_slice()[0];
    assert_eq!(rt;
        (gauge.name.as_str(), gauge.file.as_str()),
        ("G1", "g1.sgrc")
    );
}

fn assert_detail(rt: &impl Abort, details: &Items<NamedDetail>) {
    assert_eq!(rt; details.as_slice().len(), 1);
    let named = &details.as_slice()[0];
    assert_eq!(rt; (named.name.as_str(), named.gauge), ("weld", 0));
    assert_eq!(rt; (named.detail.category(), named.detail.gamma()), (71, 100));
}

#[test]
fn whole_configuration(rt: HostRuntime) -> Result<(), Fail> {
    let config = read(rt.alloc(), WHOLE.as_bytes()).expect(&rt, "it is sound");
    assert_setup(&rt, &config.setup);
    assert_eq!(rt; (config.block, config.workers), (4, 2));
    assert_gauge(&rt, &config.gauges);
    assert_detail(&rt, &config.details);
    Ok(())
}

// What holds where a part is left out.
#[test]
fn defaults(rt: HostRuntime) -> Result<(), Fail> {
    let text = WHOLE.replacen(rt.alloc(), COUNT, "", 1)?;
    let config = read(rt.alloc(), text.as_bytes()).expect(&rt, "the count has defaults");
    assert_eq!(rt; (config.block, config.workers), (1024, 4));
    let text = WHOLE.replacen(rt.alloc(), DETAIL, "", 1)?;
    let config = read(rt.alloc(), text.as_bytes()).expect(&rt, "there need be no detail");
    assert_eq!(rt; config.details.as_slice().len(), 0);
    Ok(())
}

// The limits themselves.
#[test]
fn sound_configurations(rt: HostRuntime) -> Result<(), Fail> {
    let table = [
        ("classes = 16\nwidth = 2", "classes = 1024\nwidth = 1"),
        (
            GRID,
            "[grid]\nclasses = 2\nwidth = 2000\nlow = 0\nreference = 1\n",
        ),
        ("width = 2", "width = 133"),
        ("low = -8000", "low = -1_000_000_000"),
        ("reference = 8", "reference = 15"),
        ("block = 4", "block = 4096"),
        ("workers = 2", "workers = 8"),
        (
            "num = 1000",
            "num = -1_000_000_000\nden = 1000000\noffset = -1000000000",
        ),
        (
            "kind = \"normal\"\ncategory = 71",
            "kind = \"shear\"\ncategory = 80",
        ),
        ("gamma = 100", "gamma = 0x87"),
    ];
    for (old, new) in table {
        let text = WHOLE.replacen(rt.alloc(), old, new, 1)?;
        assert_eq!(rt; fault_of(&rt, text.as_str()), None, "{old} as {new}");
    }
    Ok(())
}

#[test]
fn faults_of_the_grid(rt: HostRuntime) -> Result<(), Fail> {
    use ConfigFault::{Kind, Limit, Missing};
    check(
        &rt,
        &[
            (GRID, "", Missing(grid(KeyName::Itself))),
            (GRID, "grid = 3\n", Kind(grid(KeyName::Itself))),
            ("classes = 16\n", "", Missing(grid(KeyName::Classes))),
            (
                "classes = 16",
                "classes = 16.0",
                Kind(grid(KeyName::Classes)),
            ),
            ("classes = 16", "classes = 1", Limit(grid(KeyName::Classes))),
            (
                "classes = 16",
                "classes = 1025",
                Limit(grid(KeyName::Classes)),
            ),
            ("width = 2\n", "", Missing(grid(KeyName::Width))),
            ("width = 2", "width = true", Kind(grid(KeyName::Width))),
            ("width = 2", "width = 0", Limit(grid(KeyName::Width))),
            ("width = 2", "width = 134", Limit(grid(KeyName::Width))),
            (
                "classes = 16\nwidth = 2",
                "classes = 1024\nwidth = 2",
                Limit(grid(KeyName::Width)),
            ),
            ("low = -8000\n", "", Missing(grid(KeyName::Low))),
            ("low = -8000", "low = \"-8000\"", Kind(grid(KeyName::Low))),
            (
                "low = -8000",
                "low = -1000000001",
                Limit(grid(KeyName::Low)),
            ),
            ("low = -8000", "low = 1000000001", Limit(grid(KeyName::Low))),
            ("reference = 8\n", "", Missing(grid(KeyName::Reference))),
            (
                "reference = 8",
                "reference = [8]",
                Kind(grid(KeyName::Reference)),
            ),
            (
                "reference = 8",
                "reference = 0",
                Limit(grid(KeyName::Reference)),
            ),
            (
                "reference = 8",
                "reference = 16",
                Limit(grid(KeyName::Reference)),
            ),
            // The first fault is told: a limit before what is missing behind it.
            (
                "width = 2\nlow = -8000\n",
                "width = 0\n",
                Limit(grid(KeyName::Width)),
            ),
        ],
    )
}

#[test]
fn faults_of_the_count_and_the_gauges(rt: HostRuntime) -> Result<(), Fail> {
    use ConfigFault::{Double, Kind, Limit, Missing};
    check(
        &rt,
        &[
            ("[count]", "[[count]]", Kind(count(KeyName::Itself))),
            (
                "block = 4",
                "block = 1979-05-27",
                Kind(count(KeyName::Block)),
            ),
            ("block = 4", "block = 0", Limit(count(KeyName::Block))),
            ("block = 4", "block = 4097", Limit(count(KeyName::Block))),
            ("workers = 2", "workers = {}", Kind(count(KeyName::Workers))),
            ("workers = 2", "workers = 0", Limit(count(KeyName::Workers))),
            ("workers = 2", "workers = 9", Limit(count(KeyName::Workers))),
            (GAUGE, "", Missing(gauge(KeyName::Itself))),
            ("[[gauge]]", "[gauge]", Kind(gauge(KeyName::Itself))),
            ("name = \"G1\"\n", "", Missing(gauge(KeyName::Name))),
            ("name = \"G1\"", "name = 1", Kind(gauge(KeyName::Name))),
            ("name = \"G1\"", "name = \"\"", Limit(gauge(KeyName::Name))),
            ("name = \"G1\"", LONG_NAME, Limit(gauge(KeyName::Name))),
            (
                "name = \"G1\"",
                "name = \"G 1\"",
                Limit(gauge(KeyName::Name)),
            ),
            (
                "name = \"G1\"",
                "name = \"G.1\"",
                Limit(gauge(KeyName::Name)),
            ),
            (
                "name = \"G1\"",
                "name = \"G/1\"",
                Limit(gauge(KeyName::Name)),
            ),
            (
                "name = \"G1\"",
                "name = \"G\\n1\"",
                Limit(gauge(KeyName::Name)),
            ),
            (
                "name = \"G1\"",
                "name = \"Ü1\"",
                Limit(gauge(KeyName::Name)),
            ),
            ("file = \"g1.sgrc\"\n", "", Missing(gauge(KeyName::File))),
            (
                "file = \"g1.sgrc\"",
                "file = false",
                Kind(gauge(KeyName::File)),
            ),
            (
                "file = \"g1.sgrc\"",
                "file = \"\"",
                Limit(gauge(KeyName::File)),
            ),
            ("num = 1000\n", "", Missing(gauge(KeyName::Num))),
            ("num = 1000", "num = 1e3", Kind(gauge(KeyName::Num))),
            ("num = 1000", "num = 1000000001", Limit(gauge(KeyName::Num))),
            (
                "num = 1000",
                "num = -1000000001",
                Limit(gauge(KeyName::Num)),
            ),
            (
                "num = 1000",
                "num = 1\nden = 1.5",
                Kind(gauge(KeyName::Den)),
            ),
            ("num = 1000", "num = 1\nden = 0", Limit(gauge(KeyName::Den))),
            (
                "num = 1000",
                "num = 1\nden = 1000001",
                Limit(gauge(KeyName::Den)),
            ),
            (
                "num = 1000",
                "num = 1\noffset = \"0\"",
                Kind(gauge(KeyName::Offset)),
            ),
            (
                "num = 1000",
                "num = 1\noffset = 1000000001",
                Limit(gauge(KeyName::Offset)),
            ),
            (
                "[[detail]]",
                "[[gauge]]\nname = \"G1\"\nfile = \"a\"\nnum = 1\n[[detail]]",
                Double {
                    part: Part::Gauge,
                    first: 0,
                    second: 1,
                },
            ),
            // Another gauge's fault has its index.
            (
                "[[detail]]",
                "[[gauge]]\nname = \"G2\"\nfile = \"a\"\n[[detail]]",
                Missing(key(Part::Gauge, 1, KeyName::Num)),
            ),
        ],
    )
}

#[test]
fn faults_of_the_details(rt: HostRuntime) -> Result<(), Fail> {
    use ConfigFault::{Double, Kind, Limit, Missing, NoSuchGauge};
    check(
        &rt,
        &[
            ("[[detail]]", "[detail]", Kind(detail(KeyName::Itself))),
            ("name = \"weld\"\n", "", Missing(detail(KeyName::Name))),
            ("name = \"weld\"", "name = []", Kind(detail(KeyName::Name))),
            (
                "name = \"weld\"",
                "name = \"W*\"",
                Limit(detail(KeyName::Name)),
            ),
            ("gauge = \"G1\"\n", "", Missing(detail(KeyName::Gauge))),
            ("gauge = \"G1\"", "gauge = 0", Kind(detail(KeyName::Gauge))),
            (
                "gauge = \"G1\"",
                "gauge = \"G9\"",
                NoSuchGauge { detail: 0 },
            ),
            ("gauge = \"G1\"", "gauge = \"\"", NoSuchGauge { detail: 0 }),
            ("kind = \"normal\"\n", "", Missing(detail(KeyName::Kind))),
            ("kind = \"normal\"", "kind = 1", Kind(detail(KeyName::Kind))),
            (
                "kind = \"normal\"",
                "kind = \"bending\"",
                Limit(detail(KeyName::Kind)),
            ),
            (
                "kind = \"normal\"",
                "kind = \"shear\"",
                Limit(detail(KeyName::Category)),
            ),
            ("category = 71\n", "", Missing(detail(KeyName::Category))),
            (
                "category = 71",
                "category = \"71\"",
                Kind(detail(KeyName::Category)),
            ),
            (
                "category = 71",
                "category = 37",
                Limit(detail(KeyName::Category)),
            ),
            (
                "category = 71",
                "category = -71",
                Limit(detail(KeyName::Category)),
            ),
            (
                "category = 71",
                "category = 65536",
                Limit(detail(KeyName::Category)),
            ),
            ("gamma = 100\n", "", Missing(detail(KeyName::Gamma))),
            ("gamma = 100", "gamma = 1.0", Kind(detail(KeyName::Gamma))),
            ("gamma = 100", "gamma = 110", Limit(detail(KeyName::Gamma))),
            // The category is told before the factor is looked at, and the gauge before the name.
            (
                "category = 71\ngamma = 100",
                "category = 37",
                Limit(detail(KeyName::Category)),
            ),
            (
                "gamma = 100\n",
                "gamma = 100\n[[detail]]\nname = \"weld\"\ngauge = \"G1\"\nkind = \"normal\"\ncategory = 36\ngamma = 135\n",
                Double {
                    part: Part::Detail,
                    first: 0,
                    second: 1,
                },
            ),
            (
                "gamma = 100\n",
                "gamma = 100\n[[detail]]\nname = \"weld\"\ngauge = \"G2\"\nkind = \"normal\"\ncategory = 36\ngamma = 135\n",
                NoSuchGauge { detail: 1 },
            ),
        ],
    )
}

#[test]
fn texts_that_are_no_toml(rt: HostRuntime) -> Result<(), Fail> {
    use ConfigFault::NotToml;
    check(
        &rt,
        &[
            ("classes = 16", "classes =", NotToml),
            ("classes = 16", "classes = 16\nclasses = 16", NotToml),
            ("classes = 16", "classes = 9223372036854775808", NotToml),
            ("[count]", "[grid]", NotToml),
            ("[grid]", "[grid", NotToml),
        ],
    )?;
    assert_eq!(rt;
        read(rt.alloc(), b"[grid]\nname = \"\xff\"\n").err(),
        Some(NotToml)
    );
    Ok(())
}

// So many parts of a kind, one behind the other, after the whole configuration without its own.
fn with_parts<R: AllocGlobal>(
    rt: &R,
    without: &str,
    head: &str,
    tail: &str,
    parts: u32,
) -> Result<String, Fail> {
    let mut text = WHOLE.replacen(rt.alloc(), without, "", 1)?;
    for i in 0..parts {
        text.push_str(format!(in rt.alloc(); "{head}N{i}{tail}")?.as_str())?;
    }
    Ok(text)
}

#[test]
fn many_parts(rt: HostRuntime) -> Result<(), Fail> {
    let (head, tail) = ("[[gauge]]\nname = \"", "\"\nfile = \"f\"\nnum = 1\n");
    let text = with_parts(&rt, DETAIL, head, tail, 31)?;
    assert_eq!(rt; fault_of(&rt, text.as_str()), None);
    let text = with_parts(&rt, DETAIL, head, tail, 32)?;
    assert_eq!(rt;
        fault_of(&rt, text.as_str()),
        Some(ConfigFault::Limit(gauge(KeyName::Itself)))
    );
    let (head, tail) = (
        "[[detail]]\nname = \"",
        "\"\ngauge = \"G1\"\nkind = \"shear\"\ncategory = 100\ngamma = 115\n",
    );
    let text = with_parts(&rt, DETAIL, head, tail, 64)?;
    assert_eq!(rt; fault_of(&rt, text.as_str()), None);
    let text = with_parts(&rt, DETAIL, head, tail, 65)?;
    assert_eq!(rt;
        fault_of(&rt, text.as_str()),
        Some(ConfigFault::Limit(detail(KeyName::Itself)))
    );
    Ok(())
}

// Elements of an array that are no tables, and an array with none.
#[test]
fn arrays_of_other_things(rt: HostRuntime) -> Result<(), Fail> {
    let table = [
        ("gauge = []\n", ConfigFault::Limit(gauge(KeyName::Itself))),
        ("gauge = [1]\n", ConfigFault::Kind(gauge(KeyName::Itself))),
        (
            "gauge = [{ name = \"a\", file = \"b\", num = 1 }, 2]\n",
            ConfigFault::Kind(key(Part::Gauge, 1, KeyName::Itself)),
        ),
    ];
    for (gauges, fault) in table {
        let text = format!(in rt.alloc(); "{gauges}{GRID}")?;
        assert_eq!(rt; fault_of(&rt, text.as_str()), Some(fault));
    }
    Ok(())
}

// A file name of 255 bytes is the longest, and a configuration of 65,536.
#[test]
fn longest_texts(rt: HostRuntime) -> Result<(), Fail> {
    let mut file = String::new(rt.alloc());
    for _ in 0..255u32 {
        file.push('f')?;
    }
    let text = WHOLE.replacen(rt.alloc(), "g1.sgrc", file.as_str(), 1)?;
    assert_eq!(rt; fault_of(&rt, text.as_str()), None);
    file.push('f')?;
    let text = WHOLE.replacen(rt.alloc(), "g1.sgrc", file.as_str(), 1)?;
    assert_eq!(rt;
        fault_of(&rt, text.as_str()),
        Some(ConfigFault::Limit(gauge(KeyName::File)))
    );
    let mut text = String::from_str(rt.alloc(), WHOLE)?;
    text.push('#')?;
    for _ in text.len()..65536 {
        text.push('x')?;
    }
    assert_eq!(rt; fault_of(&rt, text.as_str()), None);
    text.push('x')?;
    assert_eq!(rt; fault_of(&rt, text.as_str()), Some(ConfigFault::TooLong));
    Ok(())
}

// A fault as it is told.
#[test]
fn texts_of_faults(rt: HostRuntime) -> Result<(), Fail> {
    let table = [
        (ConfigFault::NotToml, "not TOML"),
        (ConfigFault::TooLong, "too long"),
        (
            ConfigFault::Missing(grid(KeyName::Classes)),
            "missing grid classes",
        ),
        (
            ConfigFault::Kind(key(Part::Gauge, 3, KeyName::Num)),
            "wrong kind gauge 3 num",
        ),
        (
            ConfigFault::Limit(key(Part::Detail, 2, KeyName::Itself)),
            "out of range detail 2",
        ),
        (
            ConfigFault::Double {
                part: Part::Gauge,
                first: 0,
                second: 1,
            },
            "double gauge 0 1",
        ),
        (
            ConfigFault::NoSuchGauge { detail: 5 },
            "no such gauge, detail 5",
        ),
        (ConfigFault::OutOfMemory, "out of memory"),
    ];
    for (fault, text) in table {
        assert_eq!(rt; format!(in rt.alloc(); "{fault}")?.as_str(), text);
    }
    Ok(())
}

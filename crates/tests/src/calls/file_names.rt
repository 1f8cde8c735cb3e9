//! Tests of the names of files in SARIF logs and in workflow commands.

use report::{fault_github, fault_sarif};
use std::test::*;

/// A case: the name of a file, the URI reference of the file, and the name as it is written in a
/// workflow command.
type Case = (&'static str, &'static str, &'static str);

const NAMES: &[Case] = &[
    (
        "plans/my plan #2.toml",
        "plans/my%20plan%20%232.toml",
        "plans/my plan #2.toml",
    ),
    ("50%?.toml", "50%25%3F.toml", "50%25?.toml"),
    ("a:b,c.toml", "./a:b,c.toml", "a%3Ab%2Cc.toml"),
    ("x/a:b.toml", "x/a:b.toml", "x/a%3Ab.toml"),
    ("//host/a.toml", "/.//host/a.toml", "//host/a.toml"),
    ("é[1].toml", "%C3%A9%5B1%5D.toml", "é[1].toml"),
    (
        "-._~!$&'()*+;=@Az09",
        "-._~!$&'()*+;=@Az09",
        "-._~!$&'()*+;=@Az09",
    ),
];

#[test]
fn names_of_files(rt: HostRuntime) -> Result<(), Fail> {
    for (name, uri, property) in NAMES.iter().copied() {
        let log = fault_sarif(rt.alloc(), name, 31, "no JSON")?;
        let location = format!(in rt.alloc(); "\"artifactLocation\":{{\"uri\":\"{uri}\"}}")?;
        assert!(rt; log.as_str().contains(location.as_str()));
        let command = fault_github(rt.alloc(), name, 31, "100%,\r\nor: more")?;
        let wanted = format!(in rt.alloc();
            "::error file={property},title=fault-31::100%25,%0D%0Aor: more\n"
        )?;
        assert_eq!(rt; command.as_str(), wanted.as_str());
    }
    Ok(())
}

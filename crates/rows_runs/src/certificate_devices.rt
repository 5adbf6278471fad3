//! Files and outputs that fail while a certificate is written or checked.
use crate::runs::{Outside, answered};
use row_designs::{TWO_FLOPS, constraints};
use std::test::Fail;

const CERT: &str = "cdc certificate 1\nsync a : s1 s2\nend\n";

/// Lets each read of both commands fail in turn.
#[test]
fn reads_that_fail(rt: HostRuntime) -> Result<(), Fail> {
    let alloc = rt.alloc();
    let con = constraints(alloc, "d")?;
    for (words, read, file) in [
        ("certify net.v con.toml", 1, "net.v"),
        ("certify net.v con.toml", 2, "con.toml"),
        ("certify net.v other.toml", 0, "other.toml"),
        ("check net.v con.toml run.json", 1, "net.v"),
        ("check net.v con.toml run.json", 2, "con.toml"),
        ("check net.v con.toml run.json", 3, "run.json"),
        ("check net.v con.toml other.cert", 0, "other.cert"),
    ] {
        let outside = Outside {
            net: TWO_FLOPS.as_bytes(),
            con: con.as_str(),
            run: CERT,
            reads: &[read],
            puts: &[],
        };
        let answer = answered(alloc, words, &outside)?;
        let wanted = format!(in alloc; "error E001: cannot read: {file}\n6")?;
        assert_eq!(rt; answer.as_str(), wanted.as_str(), "{words} {read}");
    }
    Ok(())
}

/// Lets each put of both commands fail in turn: the lines before it were written.
#[test]
fn puts_that_fail(rt: HostRuntime) -> Result<(), Fail> {
    let alloc = rt.alloc();
    let con = constraints(alloc, "d")?;
    for (words, put, wanted) in [
        ("certify net.v con.toml", 1, "7"),
        ("certify net.v con.toml", 2, "cdc certificate 1\n7"),
        (
            "certify net.v con.toml",
            3,
            "cdc certificate 1\nsync a : s1 s2\n7",
        ),
        ("check net.v con.toml run.json", 1, "7"),
    ] {
        let outside = Outside {
            net: TWO_FLOPS.as_bytes(),
            con: con.as_str(),
            run: CERT,
            reads: &[],
            puts: &[put],
        };
        let answer = answered(alloc, words, &outside)?;
        assert_eq!(rt; answer.as_str(), wanted, "{words} {put}");
    }
    Ok(())
}

//! Words, and files and outputs that fail.
use crate::runs::{Outside, answered};
use row_designs::{HANDSHAKE, TWO_FLOPS, constraints};
use std::test::Fail;

#[test]
fn words_and_reads(rt: HostRuntime) -> Result<(), Fail> {
    let alloc = rt.alloc();
    let usage =
        "usage: cdcaudit audit [--json] NET CON | replay NET CON RUN | selftest N | certify NET CON | check NET CON CERT | campaign STEPS SEED NET CON | help\n2";
    let json =
        "{\"clean\":true,\"covers\":[{\"from\":\"a\",\"n\":2,\"scheme\":\"two-flop\",\"to\":\"s1\"}],\"crossings\":1,\"findings\":[],\"gray\":[],\"rings\":[]}\n0";
    let con = constraints(alloc, "d")?;
    for (words, read, wanted) in [
        ("audit net.v", 0, usage),
        ("", 0, usage),
        ("selftest 10001", 0, usage),
        ("campaign 0 1 net.v con.toml", 0, usage),
        ("campaign 10001 1 net.v con.toml", 0, usage),
        ("campaign 1 4294967296 net.v con.toml", 0, usage),
        ("campaign 1 net.v con.toml", 0, usage),
        ("--help --help", 0, usage),
        ("version", 1, "cdcaudit 1.0\n0"),
        ("-V", 1, "cdcaudit 1.0\n0"),
        ("audit --json net.v con.toml", 0, json),
        (
            "audit net.v other.toml",
            0,
            "error E001: cannot read: other.toml\n6",
        ),
        (
            "campaign 1 -- -0 net.v con.toml",
            0,
            "no loose capture in 8 runs of 1 steps\n0",
        ),
        (
            "campaign 4 1 net.v other.toml",
            0,
            "error E001: cannot read: other.toml\n6",
        ),
        (
            "audit net.v con.toml",
            1,
            "error E001: cannot read: net.v\n6",
        ),
        (
            "audit net.v con.toml",
            2,
            "error E001: cannot read: con.toml\n6",
        ),
        (
            "selftest 1",
            0,
            "selftest channels=1 bits=31 crossings=10 rings=1 clean\n0",
        ),
        (
            "selftest 3",
            0,
            "selftest channels=3 bits=81 crossings=30 rings=3 clean\n0",
        ),
    ] {
        let outside = Outside {
            net: TWO_FLOPS.as_bytes(),
            con: con.as_str(),
            run: "",
            reads: &[read],
            puts: &[],
        };
        let answer = answered(alloc, words, &outside)?;
        assert_eq!(rt; answer.as_str(), wanted, "{words} {read}");
    }
    Ok(())
}

/// Lets each `put` of an audit fail in turn: the lines before it were written.
#[test]
fn puts_that_fail(rt: HostRuntime) -> Result<(), Fail> {
    let alloc = rt.alloc();
    let con = constraints(alloc, "send d")?;
    let mut written = String::new(alloc);
    for (put, line) in [
        (1, "ring 1: req s1 s2 s3 k1 k2\n"),
        (2, "cover s3 -> k1 two-flop 2\n"),
        (3, "cover req -> s1 two-flop 2\n"),
        (4, "cover data[0] -> x[0] recirc 1\n"),
        (5, "cover data[1] -> x[1] recirc 1\n"),
        (6, "clean crossings=4\n"),
    ] {
        let outside = Outside {
            net: HANDSHAKE.as_bytes(),
            con: con.as_str(),
            run: "",
            reads: &[],
            puts: &[put],
        };
        let answer = answered(alloc, "audit net.v con.toml", &outside)?;
        let wanted = format!(in alloc; "{written}7")?;
        assert_eq!(rt; answer.as_str(), wanted.as_str(), "put {put}");
        written.push_str(line)?;
    }
    Ok(())
}

//! Words, and what they ask for.
use command_line::{Page, Refusal, Request, read};
use std::alloc::Global;
use std::test::Fail;

fn shown(alloc: Global, text: &str) -> Result<String, Fail> {
    let mut words: Vec<String> = Vec::new(alloc);
    for word in text.split(' ') {
        words.push(String::from_str(alloc, word)?)?;
    }
    let line = match read(alloc, words.as_slice()) {
        Ok(Request::Audit { json, net, con }) => format!(in alloc; "audit {json} {net} {con}")?,
        Ok(Request::Replay { net, con, run }) => format!(in alloc; "replay {net} {con} {run}")?,
        Ok(Request::Selftest { channels }) => format!(in alloc; "selftest {channels}")?,
        Ok(Request::Certify { net, con }) => format!(in alloc; "certify {net} {con}")?,
        Ok(Request::Check { net, con, cert }) => format!(in alloc; "check {net} {con} {cert}")?,
        Ok(
            Request::Campaign {
                steps,
                seed,
                net,
                con,
            },
        ) => { format!(in alloc; "campaign {steps} {seed} {net} {con}")? }
        Ok(Request::Show(Page::Help)) => String::from_str(alloc, "page of help")?,
        Ok(Request::Show(Page::Version)) => String::from_str(alloc, "page of version")?,
        Err(Refusal::Words) => String::from_str(alloc, "usage")?,
        Err(Refusal::Memory) => String::from_str(alloc, "memory")?,
    };
    Ok(line)
}

#[test]
fn words_as_the_command_reads_them(rt: HostRuntime) -> Result<(), Fail> {
    let alloc = rt.alloc();
    for (text, wanted) in [
        ("audit n.v c.toml", "audit false n.v c.toml"),
        ("audit --json n.v c.toml", "audit true n.v c.toml"),
        ("audit n.v --json c.toml", "audit true n.v c.toml"),
        ("audit n.v c.toml --json", "audit true n.v c.toml"),
        ("audit -- --json c.toml", "audit false --json c.toml"),
        ("audit --json --json n.v c.toml", "usage"),
        ("audit n.v", "usage"),
        ("audit n.v c.toml extra", "usage"),
        ("audit - c.toml", "audit false - c.toml"),
        ("audit -n c.toml", "usage"),
        ("audit --jso n.v c.toml", "usage"),
        ("audit --json=x n.v c.toml", "usage"),
        ("replay n.v c.toml r.json", "replay n.v c.toml r.json"),
        ("replay n.v c.toml", "usage"),
        ("replay n.v c.toml r.json extra", "usage"),
        ("replay --json n.v c.toml r.json", "usage"),
        ("selftest 10000", "selftest 10000"),
        ("selftest 10001", "usage"),
        ("selftest 0", "usage"),
        ("selftest +5", "selftest 5"),
        ("selftest 007", "selftest 7"),
        ("selftest -5", "usage"),
        ("selftest five", "usage"),
        ("certify n.v c.toml", "certify n.v c.toml"),
        ("certify n.v", "usage"),
        ("certify --json n.v c.toml", "usage"),
        ("certify n.v c.toml x.cert", "usage"),
        ("check n.v c.toml x.cert", "check n.v c.toml x.cert"),
        ("check n.v c.toml", "usage"),
        ("check n.v c.toml x.cert extra", "usage"),
        ("campaign 1000 7 n.v c.toml", "campaign 1000 7 n.v c.toml"),
        (
            "campaign 10000 4294967295 n.v c.toml",
            "campaign 10000 4294967295 n.v c.toml",
        ),
        ("campaign 10001 7 n.v c.toml", "usage"),
        ("campaign 0 7 n.v c.toml", "usage"),
        ("campaign 1 4294967296 n.v c.toml", "usage"),
        ("campaign 1 -- -0 n.v c.toml", "campaign 1 0 n.v c.toml"),
        ("campaign 1 -0 n.v c.toml", "usage"),
        ("campaign 1 n.v c.toml", "usage"),
        ("campaign +2 007 n.v c.toml", "campaign 2 7 n.v c.toml"),
        ("help", "page of help"),
        ("--help", "page of help"),
        ("-h", "page of help"),
        ("version", "page of version"),
        ("--version", "page of version"),
        ("-V", "page of version"),
        ("help audit", "usage"),
        ("--help --help", "usage"),
        ("-- help", "usage"),
        ("HELP", "usage"),
        ("audit help version", "audit false help version"),
        ("audi n.v c.toml", "usage"),
        ("audit -h", "usage"),
        ("-- audit n.v c.toml", "usage"),
        ("", "usage"),
    ] {
        let line = shown(alloc, text)?;
        assert_eq!(rt; line.as_str(), wanted, "{text}");
    }
    Ok(())
}

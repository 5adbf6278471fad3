//! The program over files and an output in memory, for tests.
use audit_top::run;
use cdc_base::{List, MemFile, MemFiles, MemSink, Name};
use std::alloc::Global;
use std::test::Fail;

fn file(alloc: Global, name: &str, text: &[u8]) -> Result<MemFile, Fail> {
    let name = Name::from_text(alloc, name)?;
    let bytes = List::from_vec(Vec::from_slice(alloc, text)?);
    Ok(MemFile { name, bytes })
}

fn numbers(alloc: Global, of: &[u32]) -> Result<List<u32>, Fail> {
    Ok(List::from_vec(Vec::from_slice(alloc, of)?))
}

/// The files and the output of a run, and which reads and puts fail.
#[derive(Drop)]
pub struct Outside<'a> {
    pub net: &'a [u8],
    pub con: &'a str,
    pub run: &'a str,
    pub reads: &'a [u32],
    pub puts: &'a [u32],
}

/// The output of these words, and the status behind it. The files are `net.v`, `con.toml` and `run.json`; the constraints
/// lie under `con.sdc` and `con.SDC` too.
pub fn answered(alloc: Global, words: &str, outside: &Outside) -> Result<String, Fail> {
    let mut files = List::new(alloc);
    files.push(file(alloc, "net.v", outside.net)?)?;
    for name in ["con.toml", "con.sdc", "con.SDC"] {
        files.push(file(alloc, name, outside.con.as_bytes())?)?;
    }
    files.push(file(alloc, "run.json", outside.run.as_bytes())?)?;
    let mut files = MemFiles::new(alloc, files, numbers(alloc, outside.reads)?);
    let mut out = MemSink::new(alloc, numbers(alloc, outside.puts)?);
    let mut list: Vec<String> = Vec::new(alloc);
    for word in words.split(' ') {
        list.push(String::from_str(alloc, word)?)?;
    }
    let code = run(alloc, list.as_slice(), &mut files, &mut out).code();
    let text = std::str::from_utf8(out.written())?;
    Ok(format!(in alloc; "{text}{code}")?)
}

/// The answer to an audit whose constraints are read under this word, over files and an output that don't fail.
pub fn audited_under(alloc: Global, net: &[u8], word: &str, con: &str) -> Result<String, Fail> {
    let outside = Outside {
        net,
        con,
        run: "",
        reads: &[],
        puts: &[],
    };
    let words = format!(in alloc; "audit net.v {word}")?;
    answered(alloc, words.as_str(), &outside)
}

/// The answer to an audit under constraints in TOML.
pub fn audited(alloc: Global, net: &[u8], con: &str) -> Result<String, Fail> {
    audited_under(alloc, net, "con.toml", con)
}

/// The answer to the writing of a certificate over files and an output that don't fail.
pub fn certified(alloc: Global, net: &str, con: &str) -> Result<String, Fail> {
    let outside = Outside {
        net: net.as_bytes(),
        con,
        run: "",
        reads: &[],
        puts: &[],
    };
    answered(alloc, "certify net.v con.toml", &outside)
}

/// The answer to the check of this certificate, which lies where a record does, over files and an output that don't fail.
pub fn checked(alloc: Global, net: &str, con: &str, cert: &str) -> Result<String, Fail> {
    let outside = Outside {
        net: net.as_bytes(),
        con,
        run: cert,
        reads: &[],
        puts: &[],
    };
    answered(alloc, "check net.v con.toml run.json", &outside)
}

/// The answer to a replay of this record over files and an output that don't fail.
pub fn replayed(alloc: Global, net: &str, con: &str, run: &str) -> Result<String, Fail> {
    let outside = Outside {
        net: net.as_bytes(),
        con,
        run,
        reads: &[],
        puts: &[],
    };
    answered(alloc, "replay net.v con.toml run.json", &outside)
}

/// The answer to a campaign of so many steps with this seed, over files and an output that don't fail.
pub fn campaigned(
    alloc: Global,
    net: &str,
    con: &str,
    steps: u32,
    seed: u32,
) -> Result<String, Fail> {
    let outside = Outside {
        net: net.as_bytes(),
        con,
        run: "",
        reads: &[],
        puts: &[],
    };
    let words = format!(in alloc; "campaign {steps} {seed} net.v con.toml")?;
    answered(alloc, words.as_str(), &outside)
}

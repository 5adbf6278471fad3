//! Texts at the limits, and one step beyond.
use crate::runs::audited;
use row_designs::{CLOCKS, constraints};
use std::alloc::Global;
use std::test::Fail;

const ONE_CLOCK: &str = "top = \"m\"
[[clock]]
name = \"ca\"
group = \"A\"
[[input]]
name = \"d\"
clock = \"ca\"
";

/// The text, `count` times.
fn repeated(alloc: Global, text: &str, count: usize) -> Result<String, Fail> {
    let mut all = String::new(alloc);
    for _ in 0..count {
        all.push_str(text)?;
    }
    Ok(all)
}

#[test]
fn long_files(rt: HostRuntime) -> Result<(), Fail> {
    let alloc = rt.alloc();
    let line = repeated(alloc, " ", 1_024)?;
    let mut text = repeated(alloc, line.as_str(), 262_144)?;
    let answer = audited(alloc, text.as_bytes(), CLOCKS)?;
    assert_eq!(&rt; answer.as_str(), "error E301: no top module: m\n3");
    text.push_str(" ")?;
    let answer = audited(alloc, text.as_bytes(), CLOCKS)?;
    assert_eq!(&rt; answer.as_str(), "error E600: file over 256 MiB: net.v\n3");
    Ok(())
}

#[test]
fn deep_sources(rt: HostRuntime) -> Result<(), Fail> {
    let alloc = rt.alloc();
    let open = repeated(alloc, "(", 256)?;
    let text = format!(in alloc; "module m(input d, output q); assign q = {open}")?;
    let answer = audited(alloc, text.as_bytes(), ONE_CLOCK)?;
    assert_eq!(&rt; answer.as_str(), "error E202: nested too deep at 1:296\n3");
    let open = repeated(alloc, "(", 255)?;
    let close = repeated(alloc, ")", 255)?;
    let text = format!(in alloc;
        "module m(input ca, d, output q);\nassign q = {open}d{close}; endmodule"
    )?;
    let answer = audited(alloc, text.as_bytes(), ONE_CLOCK)?;
    assert_eq!(&rt; answer.as_str(), "clean crossings=0\n0");
    Ok(())
}

/// 23 wires, each made of the one before twice: the last has a tree of 2^24 - 1 cells, though few are kept.
fn doubled(alloc: Global, output: &str) -> Result<String, Fail> {
    let mut text = String::from_str(
        alloc,
        "module m(input ca, cb, d, output q);\nwire w1 = d ^ d;\n",
    )?;
    for before in 1..23 {
        let number = before + 1;
        let line = format!(in alloc; "wire w{number} = w{before} ^ w{before};\n")?;
        text.push_str(line.as_str())?;
    }
    let last = format!(in alloc; "assign q = {output};\nendmodule\n")?;
    text.push_str(last.as_str())?;
    Ok(text)
}

#[test]
fn many_cells(rt: HostRuntime) -> Result<(), Fail> {
    let alloc = rt.alloc();
    let con = constraints(alloc, "d")?;
    let text = doubled(alloc, "~w23")?;
    let answer = audited(alloc, text.as_bytes(), con.as_str())?;
    assert_eq!(&rt; answer.as_str(), "clean crossings=0\n0");
    let text = doubled(alloc, "~(~w23)")?;
    let answer = audited(alloc, text.as_bytes(), con.as_str())?;
    assert_eq!(&rt; answer.as_str(), "error E602: too many cells\n3");
    Ok(())
}

/// Memories of 1,024 words under a header, and one of 1,023: with one port there are 2^20 signals.
fn worded(alloc: Global, header: &str) -> Result<String, Fail> {
    let mut text = format!(in alloc; "module m({header});\nreg last [0:1022];\n")?;
    for number in 0..1_023 {
        let line = format!(in alloc; "reg words{number} [0:1023];\n")?;
        text.push_str(line.as_str())?;
    }
    text.push_str("endmodule\n")?;
    Ok(text)
}

#[test]
fn many_signals(rt: HostRuntime) -> Result<(), Fail> {
    let alloc = rt.alloc();
    let con = "top = \"m\"\n[[clock]]\nname = \"ca\"\ngroup = \"A\"\n";
    let text = worded(alloc, "input ca")?;
    let answer = audited(alloc, text.as_bytes(), con)?;
    assert_eq!(&rt; answer.as_str(), "clean crossings=0\n0");
    let text = worded(alloc, "input ca, output q")?;
    let answer = audited(alloc, text.as_bytes(), con)?;
    assert_eq!(&rt; answer.as_str(), "error E601: too many signals\n3");
    Ok(())
}

/// Words of 64 bits that are written at an index, and one register. The words are those of 63 memories of 1,024, and of
/// one memory of each power of two from 512 down to 2; with 75 bits of inputs and 53 of the register there are 2^22.
fn written(alloc: Global, register: u32) -> Result<String, Fail> {
    let mut text = String::from_str(
        alloc,
        "module m(input ca, input [9:0] at, input [63:0] d);\n",
    )?;
    for number in 0..63 {
        let line = format!(in alloc;
            "reg [63:0] full{number} [0:1023];\nalways @(posedge ca) full{number}[at] <= d;\n"
        )?;
        text.push_str(line.as_str())?;
    }
    for bits in 1..10u32 {
        let last = (1u32 << bits) - 1;
        let top = bits - 1;
        let line = format!(in alloc;
            "reg [63:0] part{bits} [0:{last}];\nalways @(posedge ca) part{bits}[at[{top}:0]] <= d;\n"
        )?;
        text.push_str(line.as_str())?;
    }
    let last = format!(in alloc;
        "reg [{register}:0] r;\nalways @(posedge ca) r <= d[{register}:0];\nendmodule\n"
    )?;
    text.push_str(last.as_str())?;
    Ok(text)
}

#[test]
fn many_state_bits(rt: HostRuntime) -> Result<(), Fail> {
    let alloc = rt.alloc();
    let con =
        "top = \"m\"\n[[clock]]\nname = \"ca\"\ngroup = \"A\"\n[[input]]\nname = \"at\"\nclock = \"ca\"\n[[input]]\nname = \"d\"\nclock = \"ca\"\n";
    let text = written(alloc, 52)?;
    let answer = audited(alloc, text.as_bytes(), con)?;
    assert_eq!(&rt; answer.as_str(), "clean crossings=0\n0");
    let text = written(alloc, 53)?;
    let answer = audited(alloc, text.as_bytes(), con)?;
    assert_eq!(&rt; answer.as_str(), "error E605: too many state bits\n3");
    Ok(())
}

#[test]
fn many_crossings(rt: HostRuntime) -> Result<(), Fail> {
    let alloc = rt.alloc();
    let mut text = String::from_str(
        alloc,
        "module m(input ca, cb);\nreg [63:0] b;\nalways @(posedge ca) b <= b;\n",
    )?;
    for number in 0..1_025 {
        let line = format!(in alloc;
            "reg [63:0] x{number};\nalways @(posedge cb) x{number} <= {{64{{^b}}}};\n"
        )?;
        text.push_str(line.as_str())?;
    }
    text.push_str("endmodule\n")?;
    let answer = audited(alloc, text.as_bytes(), CLOCKS)?;
    assert_eq!(&rt; answer.as_str(), "error E603: too many crossings\n3");
    Ok(())
}

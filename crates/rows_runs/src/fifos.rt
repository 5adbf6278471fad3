//! Designs with FIFOs between two clocks.
use crate::runs::{Outside, answered, audited};
use row_designs::{FIFO, FIFO_CONSTRAINTS, FIFO_IN_MODULES};
use std::alloc::Global;
use std::process::Abort;
use std::test::Fail;

/// The lines of the pointers of `FIFO`.
const POINTERS: &str = "gray wg of wb G2
gray rg of rb G2
cover rg[0] -> r1[0] gray 2
cover rg[1] -> r1[1] gray 2
cover rg[2] -> r1[2] gray 2
cover wg[0] -> w1[0] gray 2
cover wg[1] -> w1[1] gray 2
cover wg[2] -> w1[2] gray 2
";

/// The lines of the pointers of `FIFO_IN_MODULES`.
const POINTERS_IN_MODULES: &str = "gray wr.ptr of wr.bin G1
gray rd.ptr of rd.bin G1
cover rd.ptr[0] -> r2w.m[0] gray 2
cover rd.ptr[1] -> r2w.m[1] gray 2
cover rd.ptr[2] -> r2w.m[2] gray 2
cover wr.ptr[0] -> w2r.m[0] gray 2
cover wr.ptr[1] -> w2r.m[1] gray 2
cover wr.ptr[2] -> w2r.m[2] gray 2
";

/// The end of an answer where a register, declared at this place, reads four words of two bits that no FIFO guards.
fn unguarded(alloc: Global, register: &str, place: &str) -> Result<String, Fail> {
    Ok(format!(in alloc;
        "V1 \\mem[0] [0] -> {register}[0]: no scheme
  path {register}[0] <- Mux[0] <- Mux[0] <- \\mem[0] [0]
  at {place}
V1 \\mem[1] [0] -> {register}[0]: no scheme
  path {register}[0] <- Mux[0] <- Mux[0] <- Mux[0] <- \\mem[1] [0]
  at {place}
V1 \\mem[2] [0] -> {register}[0]: no scheme
  path {register}[0] <- Mux[0] <- Mux[0] <- Mux[0] <- Mux[0] <- \\mem[2] [0]
  at {place}
V1 \\mem[3] [0] -> {register}[0]: no scheme
  path {register}[0] <- Mux[0] <- Mux[0] <- Mux[0] <- Mux[0] <- \\mem[3] [0]
  at {place}
V1 \\mem[0] [1] -> {register}[1]: no scheme
  path {register}[1] <- Mux[1] <- Mux[1] <- \\mem[0] [1]
  at {place}
V1 \\mem[1] [1] -> {register}[1]: no scheme
  path {register}[1] <- Mux[1] <- Mux[1] <- Mux[1] <- \\mem[1] [1]
  at {place}
V1 \\mem[2] [1] -> {register}[1]: no scheme
  path {register}[1] <- Mux[1] <- Mux[1] <- Mux[1] <- Mux[1] <- \\mem[2] [1]
  at {place}
V1 \\mem[3] [1] -> {register}[1]: no scheme
  path {register}[1] <- Mux[1] <- Mux[1] <- Mux[1] <- Mux[1] <- \\mem[3] [1]
  at {place}
violations=8 crossings=14
1"
    )?)
}

/// The constraints of a FIFO with a reset.
fn with_reset(alloc: Global) -> Result<String, Fail> {
    Ok(format!(in alloc; "{FIFO_CONSTRAINTS}[[reset]]\nname = \"rst_n\"\nactive = \"low\"\n")?)
}

/// The text with each part, where it stands first, replaced in turn.
fn edited(
    rt: &impl Abort,
    alloc: Global,
    net: &str,
    edits: &[(&str, &str)],
) -> Result<String, Fail> {
    let mut text = String::from_str(alloc, net)?;
    for (part, by) in edits {
        assert!(rt; text.contains(*part), "{part}");
        text = text.replacen(alloc, *part, *by, 1)?;
    }
    Ok(text)
}

/// The lines of FIFOs, the last line and the status of an answer.
fn outline(alloc: Global, answer: &str) -> Result<String, Fail> {
    let mut kept = String::new(alloc);
    for line in answer.split('\n') {
        let is_of_fifo = line.starts_with("fifo");
        let is_last = line.starts_with("clean") || line.starts_with("violations");
        if is_of_fifo || is_last || line.len() == 1 {
            kept.push_str(line)?;
            kept.push_str("\n")?;
        }
    }
    Ok(kept)
}

/// Changes of a design, and the outline of the answer.
type Row<'a> = (&'a [(&'a str, &'a str)], &'a str);

fn audit_all(
    rt: &impl Abort,
    alloc: Global,
    net: &str,
    con: &str,
    rows: &[Row],
) -> Result<(), Fail> {
    for (edits, wanted) in rows {
        let net = edited(rt, alloc, net, *edits)?;
        let answer = audited(alloc, net.as_bytes(), con)?;
        let answer = outline(alloc, answer.as_str())?;
        assert_eq!(rt; answer.as_str(), *wanted, "{net}");
    }
    Ok(())
}

#[test]
fn a_fifo_with_computed_flags(rt: HostRuntime) -> Result<(), Fail> {
    let alloc = rt.alloc();
    let answer = audited(alloc, FIFO.as_bytes(), FIFO_CONSTRAINTS)?;
    let wanted = format!(in alloc;
        "fifo 1: wb -> rb depth 4 crossings 8\n{POINTERS}clean crossings=14\n0"
    )?;
    assert_eq!(&rt; answer.as_str(), wanted.as_str());
    let net = edited(&rt, alloc, FIFO, &[("if (pop && !empty)", "if (pop)")])?;
    let answer = audited(alloc, net.as_bytes(), FIFO_CONSTRAINTS)?;
    let reads = unguarded(alloc, "x", "3:75")?;
    let wanted = format!(in alloc; "{POINTERS}{reads}")?;
    assert_eq!(&rt; answer.as_str(), wanted.as_str());
    Ok(())
}

#[test]
fn a_fifo_in_json(rt: HostRuntime) -> Result<(), Fail> {
    let outside = Outside {
        net: FIFO.as_bytes(),
        con: FIFO_CONSTRAINTS,
        run: "",
        reads: &[],
        puts: &[],
    };
    let answer = answered(rt.alloc(), "audit --json net.v con.toml", &outside)?;
    let wanted = "{\"clean\":true,\"covers\":[\
{\"from\":\"rg[0]\",\"n\":2,\"scheme\":\"gray\",\"to\":\"r1[0]\"},\
{\"from\":\"rg[1]\",\"n\":2,\"scheme\":\"gray\",\"to\":\"r1[1]\"},\
{\"from\":\"rg[2]\",\"n\":2,\"scheme\":\"gray\",\"to\":\"r1[2]\"},\
{\"from\":\"wg[0]\",\"n\":2,\"scheme\":\"gray\",\"to\":\"w1[0]\"},\
{\"from\":\"wg[1]\",\"n\":2,\"scheme\":\"gray\",\"to\":\"w1[1]\"},\
{\"from\":\"wg[2]\",\"n\":2,\"scheme\":\"gray\",\"to\":\"w1[2]\"}],\
\"crossings\":14,\"fifos\":[\"fifo 1: wb -> rb depth 4 crossings 8\"],\"findings\":[],\
\"gray\":[\"gray wg of wb G2\",\"gray rg of rb G2\"],\"rings\":[]}\n0";
    assert_eq!(&rt; answer.as_str(), wanted);
    Ok(())
}

#[test]
fn a_fifo_in_modules(rt: HostRuntime) -> Result<(), Fail> {
    let alloc = rt.alloc();
    let con = with_reset(alloc)?;
    let answer = audited(alloc, FIFO_IN_MODULES.as_bytes(), con.as_str())?;
    let wanted = format!(in alloc;
        "fifo 1: wr.bin -> rd.bin depth 4 crossings 8\n{POINTERS_IN_MODULES}clean crossings=14\n0"
    )?;
    assert_eq!(&rt; answer.as_str(), wanted.as_str());
    let reads = unguarded(alloc, "q", "30:1")?;
    let wanted = format!(in alloc; "{POINTERS_IN_MODULES}{reads}")?;
    for (part, by) in [
        ("empty <= 1'b1", "empty <= 1'b0"),
        ("empty_val = graynext == wptr2", "empty_val = ptr == wptr2"),
        ("bin + (inc & ~empty)", "bin + inc"),
        ("{~rptr2[A:A-1], rptr2[A-2:0]}", "rptr2"),
    ] {
        let net = edited(&rt, alloc, FIFO_IN_MODULES, &[(part, by)])?;
        let answer = audited(alloc, net.as_bytes(), con.as_str())?;
        assert_eq!(&rt; answer.as_str(), wanted.as_str(), "{by}");
    }
    Ok(())
}

/// The outline where one register of two bits reads the words of `FIFO`, where another four bits do, and where no FIFO is found.
const ONE: &str = "fifo 1: wb -> rb depth 4 crossings 8\nclean crossings=14\n0\n";

const TWO: &str = "fifo 1: wb -> rb depth 4 crossings 16\nclean crossings=22\n0\n";

const NONE: &str = "violations=8 crossings=14\n1\n";

/// Where the words of `FIFO` are written, and where they are read.
const PUSH: &str = "begin mem[wb[1:0]] <= d;";

const POP: &str = "if (pop && !empty) begin x <= mem[rb[1:0]];";

/// What is written, who reads it, and which pointers start where.
#[test]
fn words_and_readers(rt: HostRuntime) -> Result<(), Fail> {
    audit_all(
        &rt,
        rt.alloc(),
        FIFO,
        FIFO_CONSTRAINTS,
        &[
            (&[("r1 = 0", "r1")], NONE),
            (
                &[(
                    "assign q = x;",
                    "assign q = x; reg z1 = 0, z2 = 0; always @(posedge cb) begin z1 <= wg[0]; z2 <= z1; end",
                )],
                "violations=9 crossings=15\n1\n",
            ),
            (
                &[(
                    "if (push && !full) begin mem[wb[1:0]] <= d;",
                    "if (!full) mem[wb[1:0]] <= d; if (push && !full) begin",
                )],
                ONE,
            ),
            (&[(PUSH, "begin if (d[0]) mem[wb[1:0]] <= d;")], NONE),
            (
                &[(
                    "if (push && !full) begin mem[wb[1:0]] <= d;",
                    "mem[wb[1:0]] <= d; if (push && !full) begin",
                )],
                NONE,
            ),
            (
                &[(
                    "assign q = x;",
                    "assign q = x; reg [1:0] tag [0:3]; reg [1:0] y;
always @(posedge ca) if (push && !full) tag[wb[1:0]] <= ~d;
always @(posedge cb) if (pop && !empty) y <= tag[rb[1:0]];",
                )],
                TWO,
            ),
            (
                &[(
                    POP,
                    "if (!empty) x <= mem[rb[1:0]]; if (pop && !empty) begin",
                )],
                ONE,
            ),
            (&[("x <= mem[rb[1:0]]", "x <= x ^ mem[rb[1:0]]")], ONE),
            (
                &[(
                    POP,
                    "x <= empty ? 2'd0 : mem[rb[1:0]]; if (pop && !empty) begin",
                )],
                ONE,
            ),
            (
                &[
                    ("reg [1:0] mem [0:3];", "reg [1:0] m0, m1, m2, m3;"),
                    (
                        "mem[wb[1:0]] <= d;",
                        "if (wb[1:0] == 0) m0 <= d; if (wb[1:0] == 1) m1 <= d; if (2 == wb[1:0]) m2 <= d; if (wb[1:0] == 3) m3 <= d;",
                    ),
                    (
                        "mem[rb[1:0]]",
                        "rb[1:0] == 0 ? m0 : 1 == rb[1:0] ? m1 : rb[1:0] == 2 ? m2 : m3",
                    ),
                ],
                ONE,
            ),
            (
                &[(
                    "x <= mem[rb[1:0]];",
                    "x <= rb[1] ? (rb[0] ? mem[3] : mem[2]) : (rb[0] ? mem[1] : mem[0]);",
                )],
                NONE,
            ),
            (
                &[(
                    "assign q = x;",
                    "assign q = x; reg y; always @(posedge cb) y <= !empty & ^mem[rb[1:0]];",
                )],
                TWO,
            ),
            (
                &[(
                    "assign q = x;",
                    "assign q = x; reg [1:0] y; always @(posedge cb) y <= mem[rb[1:0]];",
                )],
                "fifo 1: wb -> rb depth 4 crossings 8\nviolations=8 crossings=22\n1\n",
            ),
            (
                &[("if (pop && !empty)", "if (pop && !empty && ^mem[rb[1:0]])")],
                "fifo 1: wb -> rb depth 4 crossings 64\nclean crossings=70\n0\n",
            ),
            (
                &[(
                    "if (pop && !empty)",
                    "if (!empty) if (pop && ^mem[rb[1:0]])",
                )],
                "fifo 1: wb -> rb depth 4 crossings 64\nclean crossings=70\n0\n",
            ),
            (
                &[(
                    "if (pop && !empty)",
                    "if (pop && ^mem[rb[1:0]]) if (!empty)",
                )],
                "violations=64 crossings=70\n1\n",
            ),
        ],
    )
}

/// How codes and flags may be written.
#[test]
fn comparisons_of_codes(rt: HostRuntime) -> Result<(), Fail> {
    let one = "fifo 1: wb -> rb depth 4 crossings 8\nclean crossings=14\n0\n";
    let none = "violations=8 crossings=14\n1\n";
    let full = "wg == {~r2[2:1], r2[0]}";
    let sum = ("wb + 3'd1", "3'd1 + wb");
    let coded = (
        "\n    wg <= (wb + 3'd1) ^ ((wb + 3'd1) >> 1); end end",
        " end end\nalways @(posedge ca) wg <= wb ^ (wb >> 1);",
    );
    audit_all(
        &rt,
        rt.alloc(),
        FIFO,
        FIFO_CONSTRAINTS,
        &[
            (&[(full, "{~r2[2:1], r2[0]} == wg")], one),
            (&[(full, "wg == (r2 ^ 3'b110)")], one),
            (
                &[(full, "wg[2] != r2[2] && wg[1] != r2[1] && wg[0] == r2[0]")],
                one,
            ),
            (&[(full, "wg[2] != r2[2] && wg[1] != r2[1]")], one),
            (&[(full, "wg == {~r2[2], r2[1:0]}")], none),
            (&[("!full", "full == 1'b0")], one),
            (&[sum, sum, sum], one),
            (
                &[
                    (
                        "if (push && !full) begin mem[wb[1:0]] <= d;",
                        "if (push && !full) mem[wb[1:0]] <= d;",
                    ),
                    ("wb <= wb + 3'd1;", "wb <= push && !full ? wb + 3'd1 : wb;"),
                    (
                        "wg <= (wb + 3'd1) ^ ((wb + 3'd1) >> 1); end end",
                        "wg <= push && !full ? (wb + 3'd1) ^ ((wb + 3'd1) >> 1) : wg; end",
                    ),
                ],
                one,
            ),
            (&[coded], none),
            (
                &[coded, (full, "(wb ^ (wb >> 1)) == {~r2[2:1], r2[0]}")],
                one,
            ),
        ],
    )
}

#[test]
fn flags_that_are_registers(rt: HostRuntime) -> Result<(), Fail> {
    let one = "fifo 1: wr.bin -> rd.bin depth 4 crossings 8\nclean crossings=14\n0\n";
    let none = "violations=8 crossings=14\n1\n";
    let flag = "full <= full_val";
    let con = with_reset(rt.alloc())?;
    audit_all(
        &rt,
        rt.alloc(),
        FIFO_IN_MODULES,
        con.as_str(),
        &[
            (&[("full <= 1'b0", "full <= 1'b1")], one),
            (
                &[(
                    "always @(posedge clk or negedge rst_n)\n    if (!rst_n) full <= 1'b0; else",
                    "always @(posedge clk)",
                )],
                one,
            ),
            (&[(flag, "full <= full_val | inc")], one),
            (
                &[
                    ("output reg empty", "output empty"),
                    (
                        "reg [A:0] bin;",
                        "reg [A:0] bin; reg nempty; assign empty = ~nempty;",
                    ),
                    (
                        "empty <= 1'b1; else empty <= empty_val",
                        "nempty <= 1'b0; else nempty <= graynext != wptr2",
                    ),
                ],
                one,
            ),
            (&[(flag, "if (inc) full <= full_val")], none),
            (
                &[(
                    flag,
                    "full <= inc ? full_val : ptr == {~rptr2[A:A-1], rptr2[A-2:0]}",
                )],
                none,
            ),
        ],
    )
}

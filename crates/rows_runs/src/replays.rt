//! Recorded runs, replayed.
use crate::runs::{Outside, answered, replayed};
use row_designs::{GRAY_COUNTER, HANDSHAKE, TWO_FLOPS, constraints};
use std::alloc::Global;
use std::process::Abort;
use std::test::Fail;

/// A netlist, a part of it and what stands in its place, the inputs on `ca`, a record, and what the answer ends with.
type Row<'a> = (&'a str, &'a str, &'a str, &'a str, &'a str, &'a str);

fn replay_all(rt: &impl Abort, alloc: Global, rows: &[Row]) -> Result<(), Fail> {
    for (net, part, by, inputs, run, wanted) in rows {
        let net = net.replacen(alloc, *part, *by, 1)?;
        let con = constraints(alloc, *inputs)?;
        let answer = replayed(alloc, net.as_str(), con.as_str(), *run)?;
        assert!(rt; answer.ends_with(*wanted), "{run}{answer}");
    }
    Ok(())
}

#[test]
fn words_and_loads(rt: HostRuntime) -> Result<(), Fail> {
    replay_all(
        &rt,
        rt.alloc(),
        &[
            (
                GRAY_COUNTER,
                "",
                "",
                "inc",
                "{\"start\":{\"inc\":1,\"s1\":8,\"s2\":8},\"steps\":[{\"edges\":[\"ca\",\"cb\"],\"races\":[{\"bit\":\"s1[3]\",\"flip\":[\"g[3]\"]}]}]}",
                "start
  inc = 1'h1
  b = 4'hf
  g = 4'h8
  s1 = 4'h8
  s2 = 4'h8
step 1: ca cb
  race s1[3]: flip g[3]
  b = 4'hf -> 4'h0
  g = 4'h8 -> 4'h0
  s1 = 4'h8 -> 4'h0
end steps=1
0",
            ),
            (
                HANDSHAKE,
                "k1 <= s3",
                "k1 <= s2",
                "send d",
                "{\"start\":{\"send\":1,\"d\":1},\"steps\":[{\"edges\":[\"ca\"],\"inputs\":{\"d\":2}},{\"edges\":[\"cb\"]},{\"edges\":[\"cb\"]},{\"edges\":[\"ca\"]},{\"edges\":[\"ca\"]},{\"edges\":[\"ca\",\"cb\"],\"races\":[{\"bit\":\"x[1]\",\"flip\":[\"data[1]\"]}]}]}",
                "step 1: ca
  d = 2'h1 -> 2'h2
  req = 1'h0 -> 1'h1
  data = 2'h0 -> 2'h1
step 2: cb
  s1 = 1'h0 -> 1'h1
step 3: cb
  s2 = 1'h0 -> 1'h1
step 4: ca
  k1 = 1'h0 -> 1'h1
step 5: ca
  k2 = 1'h0 -> 1'h1
step 6: ca cb
  race x[1]: flip data[1]
  req = 1'h1 -> 1'h0
  data = 2'h1 -> 2'h2
  s3 = 1'h0 -> 1'h1
  x = 2'h0 -> 2'h3
end steps=6
0",
            ),
            (
                HANDSHAKE,
                "s3 = 0",
                "s3 = 1",
                "send d",
                "{\"start\":{\"send\":1,\"d\":3},\"steps\":[{\"edges\":[\"ca\",\"cb\"],\"races\":[{\"bit\":\"x[0]\",\"flip\":[\"data[0]\"]}]}]}",
                "step 1: ca cb
  race x[0]: flip data[0]
  req = 1'h0 -> 1'h1
  k1 = 1'h0 -> 1'h1
  data = 2'h0 -> 2'h3
  s3 = 1'h1 -> 1'h0
  x = 2'h0 -> 2'h1
end steps=1
0",
            ),
            (
                "module m(input ca, cb, d); reg r; always @(posedge ca) begin r <= d; r <= ~d; end endmodule",
                "",
                "",
                "d",
                "{\"steps\":[{\"edges\":[\"ca\"]}]}",
                "start
  d = 1'h0
  r = 1'h0
step 1: ca
  r = 1'h0 -> 1'h1
end steps=1
0",
            ),
        ],
    )
}

#[test]
fn races_that_are_met_and_refused(rt: HostRuntime) -> Result<(), Fail> {
    replay_all(
        &rt,
        rt.alloc(),
        &[
            (
                TWO_FLOPS,
                "",
                "",
                "d",
                "{\"start\":{\"d\":1},\"steps\":[{\"edges\":[\"ca\",\"cb\"],\"races\":[{\"bit\":\"s1\",\"flip\":[\"a\"],\"else\":[]}]}]}",
                "start
  d = 1'h1
  a = 1'h0
  s1 = 1'h0
  s2 = 1'h0
step 1: ca cb
  race s1: flip a else -
  a = 1'h0 -> 1'h1
  s1 = 1'h0 -> 1'h1
  unsettled s1
end steps=1
0",
            ),
            (
                TWO_FLOPS,
                "",
                "",
                "d",
                "{\"start\":{\"d\":1},\"steps\":[{\"edges\":[\"ca\",\"cb\"],\"races\":[{\"bit\":\"s1\",\"flip\":[\"a\"],\"else\":[\"a\"]}]}]}",
                "error E505: same value: step 1 s1\n5",
            ),
            (
                TWO_FLOPS,
                "",
                "",
                "d",
                "{\"start\":{\"d\":1},\"steps\":[{\"edges\":[\"cb\"],\"races\":[{\"bit\":\"s1\",\"flip\":[\"a\"],\"else\":[]}]}]}",
                "error E504: bit is not loose: step 1 s1 a\n5",
            ),
            (
                TWO_FLOPS,
                "",
                "",
                "d",
                "{\"start\":{\"d\":1},\"steps\":[{\"edges\":[\"ca\"],\"races\":[{\"bit\":\"s1\",\"flip\":[\"a\"],\"else\":[]}]}]}",
                "error E507: clock does not tick: step 1 s1\n5",
            ),
            (
                TWO_FLOPS,
                "",
                "",
                "d",
                "{\"start\":{\"d\":1},\"steps\":[{\"edges\":[],\"races\":[{\"bit\":\"s1\",\"flip\":[\"a\"],\"else\":[]}]}]}",
                "error E506: no clock ticks: step 1\n5",
            ),
            (
                TWO_FLOPS,
                "",
                "",
                "d",
                "{\"steps\":[{\"edges\":[\"cb\"],\"inputs\":{\"d\":1}}]}",
                "error E507: clock does not tick: step 1 d\n5",
            ),
            (
                TWO_FLOPS,
                "",
                "",
                "d",
                "{\"start\":{\"d\":1},\"steps\":[]}",
                "start\n  d = 1'h1\n  a = 1'h0\n  s1 = 1'h0\n  s2 = 1'h0\nend steps=0\n0",
            ),
        ],
    )
}

#[test]
fn shapes_and_names(rt: HostRuntime) -> Result<(), Fail> {
    let rows = [
        ("", "error E501: not JSON\n5"),
        (
            "{\"steps\":[],\"start\":{\"a\":-0}}",
            "error E502: wrong shape\n5",
        ),
        ("{\"start\":{}}", "error E502: wrong shape\n5"),
        (
            "{\"steps\":[{\"edges\":[\"ca\"],\"edge\":0}]}",
            "error E502: wrong shape\n5",
        ),
        (
            "{\"steps\":[{\"edges\":[\"cc\"]},{\"edges\":[\"ca\"],\"races\":[{\"bit\":\"z\",\"flip\":[]},{\"bit\":\"z\",\"flip\":[]}]}]}",
            "error E502: wrong shape\n5",
        ),
        (
            "{\"steps\":[{\"edges\":[\"cc\"]}]}",
            "error E503: unknown name: cc\n5",
        ),
        (
            "{\"start\":{\"ca\":1},\"steps\":[]}",
            "error E503: unknown name: ca\n5",
        ),
        (
            "{\"start\":{\"a\":2,\"b\":0},\"steps\":[]}",
            "error E508: value too wide: a\n5",
        ),
        (
            "{\"steps\":[{\"edges\":[\"ca\"],\"inputs\":{\"a\":1}}]}",
            "error E503: unknown name: a\n5",
        ),
        (
            "{\"steps\":[{\"edges\":[\"cb\"],\"races\":[{\"bit\":\"s1\",\"flip\":[\"q\"]}]}]}",
            "error E503: unknown name: q\n5",
        ),
        (
            "{\"steps\":[{\"edges\":[\"ca\"],\"races\":[{\"bit\":\"d\",\"flip\":[]}]}]}",
            "error E503: unknown name: d\n5",
        ),
        (
            "{\"steps\":[],\"start\":{\"a\":2,\"a\":0}}",
            "end steps=0\n0",
        ),
    ];
    let alloc = rt.alloc();
    let con = constraints(alloc, "d")?;
    for (run, wanted) in rows {
        let answer = replayed(alloc, TWO_FLOPS, con.as_str(), run)?;
        assert!(&rt; answer.ends_with(wanted), "{run}{answer}");
    }
    let answer = replayed(
        alloc,
        GRAY_COUNTER,
        constraints(alloc, "inc")?.as_str(),
        "{\"start\":{\"b\":14},\"steps\":[]}",
    )?;
    assert_eq!(&rt; answer.as_str(), "error E509: start value differs: b\n5");
    Ok(())
}

/// `cb` settles in two cycles.
const SLOW: &str = "top = \"m\"
[[clock]]
name = \"ca\"
group = \"A\"
[[clock]]
name = \"cb\"
group = \"B\"
settle = 2
[[input]]
name = \"d\"
clock = \"ca\"
";

const THREE_FLOPS: &str = "module m(input ca, cb, d, output q);
reg a, s1, s2, s3;
always @(posedge ca) a <= d;
always @(posedge cb) begin s1 <= a; s2 <= s1; s3 <= s2; end
assign q = s3;
endmodule
";

#[test]
fn two_cycles_to_settle(rt: HostRuntime) -> Result<(), Fail> {
    let alloc = rt.alloc();
    let two =
        "{\"start\":{\"d\":1},\"steps\":[{\"edges\":[\"ca\",\"cb\"],\"races\":[{\"bit\":\"s1\",\"flip\":[],\"else\":[\"a\"]}]},{\"edges\":[\"cb\"],\"races\":[{\"bit\":\"s2\",\"flip\":[\"s1\"],\"else\":[]}]}";
    let run = format!(in alloc; "{two}]}}")?;
    let answer = replayed(alloc, THREE_FLOPS, SLOW, run.as_str())?;
    assert!(&rt;
        answer.ends_with(
            "step 1: ca cb
  race s1: flip - else a
  a = 1'h0 -> 1'h1
  unsettled s1
step 2: cb
  race s2: flip s1 else -
  s1 = 1'h0 -> 1'h1
  s2 = 1'h0 -> 1'h1
  unsettled s2
end steps=2
0"
        ),
        "{answer}"
    );
    let fast = constraints(alloc, "d")?;
    let answer = replayed(alloc, THREE_FLOPS, fast.as_str(), run.as_str())?;
    assert_eq!(&rt;
        answer.as_str(),
        "error E504: bit is not loose: step 2 s2 s1\n5"
    );
    let run = format!(in alloc;
        "{two},{{\"edges\":[\"cb\"],\"races\":[{{\"bit\":\"s3\",\"flip\":[\"s2\"]}}]}}]}}"
    )?;
    let answer = replayed(alloc, THREE_FLOPS, SLOW, run.as_str())?;
    assert_eq!(&rt;
        answer.as_str(),
        "error E504: bit is not loose: step 3 s3 s2\n5"
    );
    Ok(())
}

#[test]
fn too_many_steps(rt: HostRuntime) -> Result<(), Fail> {
    let alloc = rt.alloc();
    let mut run = String::from_str(alloc, "{\"steps\":[{\"edges\":[\"ca\"]}")?;
    for _ in 0..100_000 {
        run.push_str(",{\"edges\":[\"ca\"]}")?;
    }
    run.push_str("]}")?;
    let net =
        "module m(input ca, cb, d, output q); reg r; always @(posedge ca) r <= d; assign q = r; endmodule";
    let con = constraints(alloc, "d")?;
    let answer = replayed(alloc, net, con.as_str(), run.as_str())?;
    assert_eq!(&rt; answer.as_str(), "error E604: too many steps\n5");
    Ok(())
}

/// Each of the three reads fails in turn, and names its file.
#[test]
fn reads_that_fail(rt: HostRuntime) -> Result<(), Fail> {
    let alloc = rt.alloc();
    let con = constraints(alloc, "inc")?;
    for (read, wanted) in [
        (1, "error E001: cannot read: net.v\n6"),
        (2, "error E001: cannot read: con.toml\n6"),
        (3, "error E001: cannot read: run.json\n6"),
    ] {
        let outside = Outside {
            net: GRAY_COUNTER.as_bytes(),
            con: con.as_str(),
            run: "{\"steps\":[]}",
            reads: &[read],
            puts: &[],
        };
        let answer = answered(alloc, "replay net.v con.toml run.json", &outside)?;
        assert_eq!(&rt; answer.as_str(), wanted);
    }
    Ok(())
}

/// A replay under constraints in SDC: with both groups, with one, with a command that is refused, and read as TOML.
#[test]
fn replays_in_sdc(rt: HostRuntime) -> Result<(), Fail> {
    let alloc = rt.alloc();
    let clocks = "create_clock -period 10 ca
create_clock -period 7.5 cb
set_input_delay -clock ca 2 d
";
    let groups = "set_clock_groups -asynchronous -group ca -group cb\n";
    let run =
        "{\"steps\":[{\"edges\":[\"ca\"],\"inputs\":{\"d\":1}},{\"edges\":[\"ca\",\"cb\"],\"races\":[{\"bit\":\"s1\",\"flip\":[\"a\"]}]}]}";
    let raced = "start
  d = 1'h0
  a = 1'h0
  s1 = 1'h0
  s2 = 1'h0
step 1: ca
  d = 1'h0 -> 1'h1
step 2: ca cb
  race s1: flip a
  a = 1'h0 -> 1'h1
  s1 = 1'h0 -> 1'h1
end steps=2
0";
    for (word, more, wanted) in [
        ("con.sdc", groups, raced),
        (
            "con.sdc",
            "",
            "error E504: bit is not loose: step 2 s1 a\n5",
        ),
        (
            "con.sdc",
            "set_x",
            "error E412: SDC command left out: set_x\n4",
        ),
        ("con.toml", groups, "error E401: not TOML\n4"),
    ] {
        let con = format!(in alloc; "{clocks}{more}")?;
        let outside = Outside {
            net: TWO_FLOPS.as_bytes(),
            con: con.as_str(),
            run,
            reads: &[],
            puts: &[],
        };
        let words = format!(in alloc; "replay net.v {word} run.json")?;
        let answer = answered(alloc, words.as_str(), &outside)?;
        assert_eq!(&rt; answer.as_str(), wanted, "{word} {more}");
    }
    Ok(())
}

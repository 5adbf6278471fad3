//! Designs of every scheme and every finding.
use crate::runs::audited;
use row_designs::{CHIP, CHIP_CONSTRAINTS, GRAY_COUNTER, HANDSHAKE, TWO_FLOPS, constraints};
use std::alloc::Global;
use std::process::Abort;
use std::test::Fail;

/// A netlist, a part of it and what stands in its place, the inputs on `ca`, and the answer.
type Row<'a> = (&'a str, &'a str, &'a str, &'a str, &'a str);

fn audit_all(rt: &impl Abort, alloc: Global, rows: &[Row]) -> Result<(), Fail> {
    for (net, part, by, inputs, wanted) in rows {
        let net = net.replacen(alloc, *part, *by, 1)?;
        let con = constraints(alloc, *inputs)?;
        let answer = audited(alloc, net.as_bytes(), con.as_str())?;
        assert_eq!(rt; answer.as_str(), *wanted, "{net}");
    }
    Ok(())
}

#[test]
fn synchronizers(rt: HostRuntime) -> Result<(), Fail> {
    let one_clock =
        "module m(input ca, cb, d, output q); reg r; always @(posedge ca) r <= d; assign q = r; endmodule";
    let logic = "module m(input ca, cb, d, e, output q);
reg a, en, s1, s2;
always @(posedge ca) begin a <= d; en <= e; end
always @(posedge cb) begin s1 <= a & en; s2 <= s1; end
assign q = s2;
endmodule
";
    let one_flop = "module m(input ca, cb, d, output q);
reg a, s1;
always @(posedge ca) a <= d;
always @(posedge cb) s1 <= a;
assign q = s1;
endmodule
";
    audit_all(
        &rt,
        rt.alloc(),
        &[
            (
                TWO_FLOPS,
                "",
                "",
                "d",
                "cover a -> s1 two-flop 2\nclean crossings=1\n0",
            ),
            (one_clock, "", "", "d", "clean crossings=0\n0"),
            (
                one_clock,
                "",
                "",
                "",
                "error E405: input not declared: d\n4",
            ),
            ("", "", "", "", "error E301: no top module: m\n3"),
            (
                TWO_FLOPS,
                "s2 <= s1",
                "s2 <= ~s1",
                "d",
                "V2 a -> s1: no second flop\n  path s1 <- a\n  at 2:1\nviolations=1 crossings=1\n1",
            ),
            (
                one_flop,
                "",
                "",
                "d",
                "V2 a -> s1: no second flop\n  path s1 <- a\n  at 2:1\nviolations=1 crossings=1\n1",
            ),
            (
                logic,
                "",
                "",
                "d e",
                "V1 a -> s1: no scheme
  path s1 <- And[0] <- a
  at 2:1
V1 en -> s1: no scheme
  path s1 <- And[0] <- en
  at 2:1
violations=2 crossings=2
1",
            ),
            (
                TWO_FLOPS,
                "s2;\nalways @(posedge ca) a <= d;\nalways @(posedge cb) begin",
                "s2; reg t1, t2;\nalways @(posedge ca) a <= d;\nalways @(posedge cb) begin t1 <= a; t2 <= t1;",
                "d",
                "cover a -> s1 two-flop 2
cover a -> t1 two-flop 2
V4 a -> B: several first flops
  flop a -> s1
  flop a -> t1
  at 2:1
violations=1 crossings=2
1",
            ),
        ],
    )
}

#[test]
fn words_that_cross(rt: HostRuntime) -> Result<(), Fail> {
    let binary = "module m(input ca, cb, output q);
reg [1:0] b; reg [1:0] s1, s2, s3; reg hit;
always @(posedge ca) b <= b + 1;
always @(posedge cb) begin s1 <= b; s2 <= s1; s3 <= s2; hit <= s3 == 2'd2; end
assign q = hit;
endmodule
";
    let process = "always @(posedge ca) {b, g} <= {bn, (bn >> 1) ^ bn};";
    let coded = "cover g[0] -> s1[0] gray 2
cover g[1] -> s1[1] gray 2
cover g[2] -> s1[2] gray 2
cover g[3] -> s1[3] gray 2
clean crossings=4
0";
    let bare = "cover g[0] -> s1[0] two-flop 2
cover g[1] -> s1[1] two-flop 2
cover g[2] -> s1[2] two-flop 2
cover g[3] -> s1[3] two-flop 2
V3 g -> B: 4 bits by first flops and no Gray register
  flop g[0] -> s1[0]
  flop g[1] -> s1[1]
  flop g[2] -> s1[2]
  flop g[3] -> s1[3]
  at 2:1
violations=1 crossings=4
1";
    let alloc = rt.alloc();
    let first = format!(in alloc; "gray g of b G1\n{coded}")?;
    let second = format!(in alloc; "gray g of b G2\n{coded}")?;
    audit_all(
        &rt,
        rt.alloc(),
        &[
            (
                binary,
                "",
                "",
                "",
                "cover b[0] -> s1[0] two-flop 3
cover b[1] -> s1[1] two-flop 3
V3 b -> B: 2 bits by first flops and no Gray register
  flop b[0] -> s1[0]
  flop b[1] -> s1[1]
  at 2:1
V6 hit: arrivals of several families from A
  arrival s3[0] of b[0] depth 3
  arrival s3[1] of b[1] depth 3
  at 2:36
violations=2 crossings=2
1",
            ),
            (GRAY_COUNTER, "", "", "inc", first.as_str()),
            (
                GRAY_COUNTER,
                "cb, inc,",
                "cb, input [1:0] inc,",
                "inc",
                bare,
            ),
            (
                GRAY_COUNTER,
                process,
                "always @(posedge ca) if (inc) begin b <= b + 1; g <= (b + 1) ^ ((b + 1) >> 1); end",
                "inc",
                bare,
            ),
            (
                GRAY_COUNTER,
                process,
                "always @(posedge ca) if (inc) begin b <= b + 4'd1; g <= (b + 4'd1) ^ ((b + 4'd1) >> 1); end",
                "inc",
                second.as_str(),
            ),
        ],
    )
}

#[test]
fn handshakes(rt: HostRuntime) -> Result<(), Fail> {
    let four_phases = "module m(input ca, cb, send, d, output q);
reg req = 0, k1 = 0, k2 = 0, data;
reg s1 = 0, s2 = 0, ack = 0, x;
always @(posedge ca) begin
  k1 <= ack; k2 <= k1;
  if (send && !k2) req <= 1'b1; else if (k2) req <= 1'b0;
  if (send) data <= d;
end
always @(posedge cb) begin
  s1 <= req; s2 <= s1; ack <= s2;
  if (s2 && !ack) x <= data;
end
assign q = x;
endmodule
";
    let bare = "cover req -> s1 two-flop 2
V1 data[0] -> x[0]: no scheme
  path x[0] <- Mux[0] <- data[0]
  at 3:29
V1 data[1] -> x[1]: no scheme
  path x[1] <- Mux[1] <- data[1]
  at 3:29
violations=2 crossings=4
1";
    let gated = "ring 1: req s1 s2 s3 k1 k2
cover s3 -> k1 two-flop 2
cover req -> s1 two-flop 2
cover data[0] -> x[0] recirc 1
cover data[1] -> x[1] recirc 1
";
    let alloc = rt.alloc();
    let clean = format!(in alloc; "{gated}clean crossings=4\n0")?;
    let early = format!(in alloc; "cover s2 -> k1 two-flop 2\n{bare}")?;
    let unequal = format!(in alloc; "cover s3 -> k1 two-flop 2\n{bare}")?;
    let open = format!(in alloc;
        "{gated}V8 data[0] -> y: not gated by ring 1
  path y <- ReduceXor[0] <- data[0]
  at 3:42
V8 data[1] -> y: not gated by ring 1
  path y <- ReduceXor[0] <- data[1]
  at 3:42
violations=2 crossings=6
1"
    )?;
    audit_all(
        &rt,
        rt.alloc(),
        &[
            (HANDSHAKE, "", "", "send d", clean.as_str()),
            (HANDSHAKE, "k1 <= s3", "k1 <= s2", "send d", early.as_str()),
            (HANDSHAKE, "s3 = 0", "s3 = 1", "send d", unequal.as_str()),
            (
                HANDSHAKE,
                "x;\nalways @(posedge ca) begin
  k1 <= s3; k2 <= k1;
  if (send && req == k2) begin req <= ~req; data <= d; end
end
always @(posedge cb) begin",
                "x; reg y;\nalways @(posedge ca) begin
  k1 <= s3; k2 <= k1;
  if (send && req == k2) begin req <= ~req; data <= d; end
end
always @(posedge cb) begin y <= ^data;",
                "send d",
                open.as_str(),
            ),
            (
                four_phases,
                "",
                "",
                "send d",
                "ring 1: req s1 s2 ack k1 k2
cover ack -> k1 two-flop 2
cover req -> s1 two-flop 2
V7 data -> x: data not held by ring 1
  path x <- Mux[0] <- data
  at 3:1
violations=1 crossings=3
1",
            ),
        ],
    )
}

/// Each bit of a register is a Slice of the tree of its process.
#[test]
fn registers_with_several_processes(rt: HostRuntime) -> Result<(), Fail> {
    let net =
        "module m(input ca, cb, d); reg [3:0] r; reg [1:0] s; always @(posedge ca) r[0] <= d; \
always @(posedge ca) if (d) r[3:2] <= r[1:0]; always @(posedge ca) r[1] <= r[0]; \
always @(posedge cb) s[0] <= r[3]; always @(posedge cb) s[1] <= s[0] & r[1]; endmodule";
    audit_all(
        &rt,
        rt.alloc(),
        &[(
            net,
            "",
            "",
            "d",
            "V1 r[1] -> s[1]: no scheme
  path s[1] <- Concat[1] <- Slice[0] <- Concat[1] <- And[0] <- Slice[0] <- r[1]
  at 1:41
V2 r[3] -> s[0]: no second flop
  path s[0] <- Concat[0] <- Slice[0] <- Concat[0] <- Slice[0] <- r[3]
  at 1:41
violations=2 crossings=2
1",
        )],
    )
}

#[test]
fn a_whole_design(rt: HostRuntime) -> Result<(), Fail> {
    let answer = audited(rt.alloc(), CHIP.as_bytes(), CHIP_CONSTRAINTS)?;
    assert_eq!(rt;
        answer.as_str(),
        "gray ptr of bin G1
cover ptr[0] -> u1.m[0] gray 2
cover ptr[1] -> u1.m[1] gray 2
cover ptr[2] -> u1.m[2] gray 2
cover ptr[3] -> u1.m[3] gray 2
cover lvl -> \\u.2 .m[0] two-flop 2
clean crossings=5
0"
    );
    Ok(())
}

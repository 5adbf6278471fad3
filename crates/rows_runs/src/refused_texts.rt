//! Texts that are refused, and texts close by that aren't.
use crate::runs::audited;
use row_designs::{TWO_FLOPS, constraints};
use std::alloc::Global;
use std::process::Abort;
use std::test::Fail;

/// Audits each netlist under both clocks without an input, and compares the answer.
fn refuse_all(rt: &impl Abort, alloc: Global, rows: &[(&str, &str)]) -> Result<(), Fail> {
    let con = constraints(alloc, "")?;
    for (net, line) in rows {
        let answer = audited(alloc, net.as_bytes(), con.as_str())?;
        let wanted = format!(in alloc; "{line}\n3")?;
        assert_eq!(rt; answer.as_str(), wanted.as_str(), "{net}");
    }
    Ok(())
}

#[test]
fn tokens_and_grammar(rt: HostRuntime) -> Result<(), Fail> {
    refuse_all(
        &rt,
        rt.alloc(),
        &[
            (
                "`include \"x\"",
                "error E104: directive left out at 1:1: include",
            ),
            (
                "module m; initial forever ; endmodule",
                "error E105: reserved word left out at 1:19: forever",
            ),
            ("module m(input ca", "error E201: no reading at 1:18"),
            ("module m(input ca)) ;", "error E201: no reading at 1:19"),
            (
                "module m; wire [65'h0:0] a; endmodule",
                "error E103: bad number at 1:17",
            ),
            (
                "module m; wire a = 4'b2; endmodule",
                "error E103: bad number at 1:20",
            ),
            (
                "module m; /* endmodule",
                "error E102: unfinished comment or attribute at 1:11",
            ),
            (
                "module m; $x endmodule",
                "error E101: no token begins here at 1:11",
            ),
            (
                "module m; initial a = 1; else endmodule",
                "error E201: no reading at 1:26",
            ),
            (
                "module m; always @* case (s) 4'b1?: ; endcase endmodule",
                "error E201: no reading at 1:30",
            ),
            (
                "module m; always @* casez (s) (4'b1?): ; endcase endmodule",
                "error E201: no reading at 1:32",
            ),
            (
                "module m; assign a = 4'b1?; endmodule",
                "error E201: no reading at 1:22",
            ),
            (
                "module m; initial a = #1 b; endmodule",
                "error E201: no reading at 1:23",
            ),
            (
                "module m; initial a <= #(1, 2) b; endmodule",
                "error E201: no reading at 1:27",
            ),
            (
                "module m; wire [1 +: 1] a; endmodule",
                "error E201: no reading at 1:19",
            ),
            (
                "`celldefine wire w;",
                "error E104: directive left out at 1:1: celldefine",
            ),
            (
                "`timescale 1ns/1ps /* x",
                "error E104: directive left out at 1:1: timescale",
            ),
            (
                "(* \\a = 1 *)",
                "error E102: unfinished comment or attribute at 1:1",
            ),
            (
                "(* a // *)\nmodule m; endmodule",
                "error E102: unfinished comment or attribute at 1:1",
            ),
            (
                "module m; wire w = 'h1_0000_0000; endmodule",
                "error E103: bad number at 1:20",
            ),
            (
                "module m; wire w = 1 &&& 1; endmodule",
                "error E201: no reading at 1:22",
            ),
            (
                "module m; wire w = 2'b?0; endmodule",
                "error E201: no reading at 1:20",
            ),
        ],
    )
}

#[test]
fn flattening(rt: HostRuntime) -> Result<(), Fail> {
    refuse_all(
        &rt,
        rt.alloc(),
        &[
            ("", "error E301: no top module: m"),
            (
                "module m(input ca); n u(ca); endmodule",
                "error E302: unknown module at 1:21: n",
            ),
            (
                "module m(input ca); m u(ca); endmodule",
                "error E303: module inside itself at 1:21: m",
            ),
            (
                "module m(input ca); reg ca; endmodule",
                "error E304: name declared twice at 1:21: ca",
            ),
            (
                "module m(input ca); wire w = x; endmodule",
                "error E305: unknown name at 1:21: x",
            ),
            (
                "module m(input ca); wire [2-3:0] a; endmodule",
                "error E307: constant out of range at 1:21",
            ),
            (
                "module m(input ca); reg [64:0] a; endmodule",
                "error E308: width not 1 to 64 at 1:21: a",
            ),
            (
                "module m(input ca); wire w; assign w = ca; assign w = ca; endmodule",
                "error E309: two drivers at 1:21: w",
            ),
            (
                "module m(input ca, output q); wire w; assign q = w; endmodule",
                "error E310: undriven bit is read at 1:31: w",
            ),
            (
                "module m(input ca, d, output reg q); always @* if (d) q = 1'b1; endmodule",
                "error E311: latch at 1:38: q",
            ),
            (
                "module m(input ca, output q); wire w = ~w; assign q = w; endmodule",
                "error E312: combinational loop at 1:31: w",
            ),
        ],
    )
}

/// Parts by a base and a count, the unary minus, masks of labels, delays of assignments.
#[test]
fn parts_and_masks(rt: HostRuntime) -> Result<(), Fail> {
    refuse_all(
        &rt,
        rt.alloc(),
        &[
            (
                "module m(input ca, input [3:0] v, output q); assign q = v[4 -: 2]; endmodule",
                "error E314: index out of range at 1:46: v",
            ),
            (
                "module m(input ca, input [3:0] v, output q); assign q = v[3 +: 2]; endmodule",
                "error E314: index out of range at 1:46: v",
            ),
            (
                "module m(input ca, input [3:0] v, output q); assign q = v[0 -: 2]; endmodule",
                "error E314: index out of range at 1:46: v",
            ),
            (
                "module m(input ca, input [3:0] v, output q); assign q = v[ca +: 1]; endmodule",
                "error E307: constant out of range at 1:46",
            ),
            (
                "module m(input ca, input [3:0] v, output q); assign q = v[1 +: 0]; endmodule",
                "error E307: constant out of range at 1:46",
            ),
            (
                "module m(input ca, input [3:0] v, output [3:0] q); assign q = v & -1; endmodule",
                "error E307: constant out of range at 1:52",
            ),
            (
                "module n(input [3:0] i); endmodule module m(input ca); n u(-ca); endmodule",
                "error E306: port or parameter mismatch at 1:56: n",
            ),
            (
                "module m(input ca, input [3:0] v); reg r; always @* casez (v) ca: r = 1; default: r = 0; endcase endmodule",
                "error E307: constant out of range at 1:43",
            ),
            (
                "module m(input ca); reg r; always @* casez (ca) 1'b?: r = 1; endcase endmodule",
                "error E311: latch at 1:28: r",
            ),
            (
                "module m(input ca, input [3:0] v); reg r; always @* case (v) 4'b1??0: r = 1; default: r = 0; endcase endmodule",
                "error E201: no reading at 1:62",
            ),
            (
                "module m(input ca, d); reg r; always @(posedge ca) begin r <= #1 d; r <= #2 d; end endmodule",
                "error E313: wrong kind of assignment at 1:31: r",
            ),
        ],
    )
}

/// Lists of levels, later assignments of wires and delays that would change an order.
#[test]
fn levels_and_delays(rt: HostRuntime) -> Result<(), Fail> {
    refuse_all(
        &rt,
        rt.alloc(),
        &[
            (
                "module m(input ca, input a, b); reg r; always @(a) r = a ^ b; endmodule",
                "error E316: clock form at 1:40: a",
            ),
            (
                "module m(input ca, input a, b); reg r; always @(a) if (a) r = b; endmodule",
                "error E311: latch at 1:40: r",
            ),
            (
                "module m(input ca, input a, b); reg r; always @(a or n) r = a; endmodule",
                "error E305: unknown name at 1:40: n",
            ),
            (
                "module m(input ca, input a, b); reg r; always @(posedge ca or b) r <= a; endmodule",
                "error E316: clock form at 1:40: ca",
            ),
            (
                "module m(input ca, input a, b); parameter P = 1; reg r; always @(a, P) r = a; endmodule",
                "error E316: clock form at 1:57: a",
            ),
            (
                "module m(input ca, input a, b); reg r; always @* begin r <= a; r = b; end endmodule",
                "error E313: wrong kind of assignment at 1:40: r",
            ),
            (
                "module m(input ca, input a, b); reg r, s; always @(a or r) begin r <= a; s <= r; end endmodule",
                "error E313: wrong kind of assignment at 1:43: r",
            ),
            (
                "module m(input ca, input a, b); reg r; always @* r <= #1 a; endmodule",
                "error E313: wrong kind of assignment at 1:40: r",
            ),
            (
                "module m(input ca, input a, b); reg r; always @(posedge ca) begin r <= a; if (b) r <= #1 b; end endmodule",
                "error E313: wrong kind of assignment at 1:40: r",
            ),
            (
                "module m(input ca, input a, b); reg r; always @(posedge ca) begin r <= #T a; r <= #1 b; end endmodule",
                "error E313: wrong kind of assignment at 1:40: r",
            ),
        ],
    )
}

/// Texts that other tools would read in another way, or that could be read in two.
#[test]
fn other_meanings(rt: HostRuntime) -> Result<(), Fail> {
    refuse_all(
        &rt,
        rt.alloc(),
        &[
            (
                "module m(input ca, output [7:0] o); assign o = {3, ca}; endmodule",
                "error E308: width not 1 to 64 at 1:37",
            ),
            (
                "module m(input ca, output [7:0] o); assign o = {2{'h3}}; endmodule",
                "error E308: width not 1 to 64 at 1:37",
            ),
            (
                "module m(input ca, output q); assign q = (ca ? 1 : 2) < 3; endmodule",
                "error E307: constant out of range at 1:31",
            ),
            (
                "module m; parameter P = 1 << 5'd31; endmodule",
                "error E307: constant out of range at 1:11",
            ),
            (
                "module n #(parameter [7:0] P = 0) (); endmodule module m; n #(.P(4'd15 + 4'd2)) u (); endmodule",
                "error E306: port or parameter mismatch at 1:59: n",
            ),
            (
                "module n(input [3:0] i); endmodule module m(input ca); n u(~ca); endmodule",
                "error E306: port or parameter mismatch at 1:56: n",
            ),
            (
                "module m(input ca, cb); wire w; assign {w, w} = {ca, cb}; endmodule",
                "error E313: wrong kind of assignment at 1:33: w",
            ),
            (
                "module m(input ca, cb); reg i; reg [1:0] r; always @(posedge ca) {i, r[i]} <= {cb, ca}; endmodule",
                "error E313: wrong kind of assignment at 1:45: r",
            ),
            (
                "module m(input ca, output q); reg M [0:1]; assign q = \\M[0] ; endmodule",
                "error E305: unknown name at 1:44: M[0]",
            ),
            (
                "module n(input i, output o); assign o = i; endmodule module m(output q); n u(.o(q)); endmodule",
                "error E310: undriven bit is read at 1:1: u.i",
            ),
            (
                "module m(a); input a; reg a; endmodule",
                "error E304: name declared twice at 1:23: a",
            ),
            (
                "module m(input [1:0] ca, output q); reg M [0:2]; assign q = M[ca]; endmodule",
                "error E315: index may miss at 1:50: M",
            ),
        ],
    )
}

/// Bits of one register in several processes: their edges differ, two may assign one bit, or one is a process of wires.
#[test]
fn registers_with_two_drivers(rt: HostRuntime) -> Result<(), Fail> {
    refuse_all(
        &rt,
        rt.alloc(),
        &[
            (
                "module m(input ca, cb, d); reg [1:0] r; always @(posedge ca) r[0] <= d; always @(posedge cb) r[1] <= r[0]; endmodule",
                "error E309: two drivers at 1:28: r[0]",
            ),
            (
                "module m(input ca, cb, d); reg i; reg [1:0] r; always @(posedge ca) r[0] <= d; always @(posedge ca) r[i] <= d; endmodule",
                "error E309: two drivers at 1:35: r[0]",
            ),
            (
                "module m(input ca, cb, d); reg [1:0] r; always @* r[1] = d; always @(posedge ca) r[0] <= d; endmodule",
                "error E309: two drivers at 1:28: r[0]",
            ),
        ],
    )
}

/// The edges of a register's processes are the same, and a reset's branch drives what it assigns.
#[test]
fn registers_with_resets(rt: HostRuntime) -> Result<(), Fail> {
    let alloc = rt.alloc();
    let declared = constraints(alloc, "")?;
    let con = format!(in alloc; "{declared}[[reset]]\nname = \"e\"\nactive = \"low\"\n")?;
    let reset = "always @(posedge ca or negedge e) if (!e) r[0] <= 0; else r[0] <= r[1];";
    for (other, wanted) in [
        (
            "always @(posedge ca or negedge e) if (!e) r[1] <= 1; else r[1] <= r[0];",
            "clean crossings=0\n0",
        ),
        (
            "always @(posedge ca) r[1] <= r[0];",
            "error E309: two drivers at 1:28: r[0]\n3",
        ),
        (
            "always @(posedge ca or negedge e) if (!e) r <= 0; else r[1] <= r[0];",
            "error E309: two drivers at 1:28: r[0]\n3",
        ),
    ] {
        let net = format!(in alloc;
            "module m(input ca, cb, e); reg [1:0] r; {reset} {other} endmodule"
        )?;
        let answer = audited(alloc, net.as_bytes(), con.as_str())?;
        assert_eq!(&rt; answer.as_str(), wanted, "{other}");
    }
    Ok(())
}

#[test]
fn constraint_files(rt: HostRuntime) -> Result<(), Fail> {
    let alloc = rt.alloc();
    let net =
        "module m(input ca, cb, d, output q); reg r; always @(posedge ca) r <= d; assign q = r; endmodule";
    let declared = constraints(alloc, "d")?;
    for (more, wanted) in [
        (
            "[[static]]\nname = \"z\"\n",
            "error E403: no such input or reset: z\n4",
        ),
        (
            "[[static]]\nname = \"ca\"\n",
            "error E404: name declared twice: ca\n4",
        ),
        ("[[colour]]\n", "error E402: wrong key: colour\n4"),
        ("[[static\n", "error E401: not TOML\n4"),
        ("", "clean crossings=0\n0"),
    ] {
        let con = format!(in alloc; "{declared}{more}")?;
        let answer = audited(alloc, net.as_bytes(), con.as_str())?;
        assert_eq!(&rt; answer.as_str(), wanted, "{more}");
    }
    for (con, wanted) in [
        ("top = 3", "error E402: wrong key: top\n4"),
        (
            "top = \"m\"\n[[clock]]\nname = \"ca\"\ngroup = \"A\"\n[[input]]\nname = \"d\"\nclock = \"cc\"\n",
            "error E409: no such clock: cc\n4",
        ),
        (
            "top = \"m\"\n[[input]]\nname = \"d\"\nclock = \"ca\"\n",
            "error E409: no such clock: ca\n4",
        ),
    ] {
        let answer = audited(alloc, net.as_bytes(), con)?;
        assert_eq!(&rt; answer.as_str(), wanted, "{con}");
    }
    Ok(())
}

/// A variable index stands in no reset form; in a concatenation it breaks a rule of the item, which comes first.
#[test]
fn resets_have_constant_indices(rt: HostRuntime) -> Result<(), Fail> {
    let alloc = rt.alloc();
    let declared = constraints(alloc, "")?;
    let con = format!(in alloc; "{declared}[[reset]]\nname = \"e\"\nactive = \"low\"\n")?;
    for (target, wanted) in [
        ("M[d]", "error E317: reset form at 1:51: ca\n3"),
        ("{M[d], x}", "error E319: memory at 1:51: M\n3"),
    ] {
        let net = format!(in alloc;
            "module m(input ca, cb, e, d); reg x; reg M [0:1]; always @(posedge ca) if (!e) {target} <= 0; else x <= d; endmodule"
        )?;
        let answer = audited(alloc, net.as_bytes(), con.as_str())?;
        assert_eq!(&rt; answer.as_str(), wanted, "{target}");
    }
    Ok(())
}

#[test]
fn accepted_texts(rt: HostRuntime) -> Result<(), Fail> {
    let alloc = rt.alloc();
    let con = constraints(alloc, "")?;
    for net in [
        "module m(input ca, cb); reg [63:0] a; always @(posedge ca) a <= a; endmodule",
        "module m(input ca, cb, output [3:0] q); assign q = 4'd31; endmodule",
        "module m(input ca, cb, output [2:0] q); parameter W = 8, E = W > 4; assign q = {E, 2'd1}; endmodule",
        "module m(ca, cb, q); input ca, cb; wire ca; output q; wire q; assign q = 1'b0; endmodule",
        "module m(input ca, cb, output [7:0] q); wire [1:0] w = 0; assign q = {4{w}} <<< 1; endmodule",
        "`line 7 \"a.v\" 1\nmodule m(input ca, cb, output q); assign q = 2'b10 > 1; endmodule",
        "module m(input ca, cb, output q); (* a = \"\\\"*)\" *) assign q = 0; endmodule",
        "module m(input ca, cb, output q); reg [1:0] i; reg M [0:4]; always @(posedge ca) begin i <= i; M[i] <= 0; end assign q = M[i]; endmodule",
        "module m(input ca, cb); reg [1:0] r; always @(posedge ca) r[0] <= r[1]; always @(posedge ca) r[1] <= r[0]; endmodule",
        "module n(input i); endmodule module m(input ca, cb); n u(); endmodule",
        "module n #(parameter [7:0] P = 0) (); endmodule module m(input ca, cb); n #(.P(15 + 2)) u (); endmodule",
    ] {
        let answer = audited(alloc, net.as_bytes(), con.as_str())?;
        assert_eq!(&rt; answer.as_str(), "clean crossings=0\n0", "{net}");
    }
    let joined = TWO_FLOPS
        .replace(alloc, "\n", " ")?
        .replacen(alloc, "endmodule", "/* x */ endmodule", 1)?;
    let con = constraints(alloc, "d")?;
    let answer = audited(alloc, joined.as_bytes(), con.as_str())?;
    assert_eq!(&rt;
        answer.as_str(),
        "cover a -> s1 two-flop 2\nclean crossings=1\n0"
    );
    Ok(())
}

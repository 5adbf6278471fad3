//! Designs with resets, those that the design makes among them.
use crate::runs::audited;
use row_designs::constraints;
use std::alloc::Global;
use std::test::Fail;

/// A reset synchronizer for each clock, and a local reset that is inverted.
const CHIP: &str = "module rst_sync(input clk, rst_n, output rst_out_n);
  reg r1, r2;
  always @(negedge rst_n or posedge clk)
    if (!rst_n) {r2, r1} <= 2'b00; else {r2, r1} <= {r1, 1'b1};
  assign rst_out_n = r2;
endmodule
module flag(input clk, rst, d, output q);
  reg m, s;
  always @(posedge clk or posedge rst)
    if (rst) {s, m} <= 0; else {s, m} <= {m, d};
  assign q = s;
endmodule
module m(input ca, cb, rst_n, clr, output q);
  wire ra_n, rb_n, rb;
  not (rb, rb_n);
  rst_sync ua(ca, rst_n, ra_n), ub(cb, rst_n, rb_n);
  reg t;
  always @(posedge ca or negedge ra_n)
    if (!ra_n || clr) t <= 0; else t <= ~t;
  flag uf(.clk(cb), .rst(rb), .d(t), .q(q));
endmodule
";

/// Constraints with inputs on the first clock, and resets by name and level.
fn with_resets(alloc: Global, inputs: &str, resets: &[(&str, &str)]) -> Result<String, Fail> {
    let mut con = constraints(alloc, inputs)?;
    for (name, level) in resets {
        let reset = format!(in alloc; "[[reset]]\nname = \"{name}\"\nactive = \"{level}\"\n")?;
        con.push_str(reset.as_str())?;
    }
    Ok(con)
}

#[test]
fn resets_that_registers_make(rt: HostRuntime) -> Result<(), Fail> {
    let alloc = rt.alloc();
    let covered = "cover t -> uf.m two-flop 2\nclean crossings=1\n0";
    let root = ("rst_n", "low");
    let ra_n = ("ra_n", "low");
    let rb = ("rb", "high");
    let ub_r2 = ("ub.r2", "low");
    let rows: [(&[(&str, &str)], &str); 9] = [
        (&[root, ra_n, ub_r2], covered),
        (&[root, ("ua.r2", "low"), ub_r2], covered),
        (&[root, ("ua.rst_out_n", "low"), ub_r2], covered),
        (&[root, ra_n, ("rb_n", "low")], covered),
        (&[root, ra_n, rb], covered),
        (&[root, ra_n, ("uf.rst", "high")], covered),
        (&[root, ra_n], "error E317: reset form at 9:3: clk\n3"),
        (
            &[root, ("ra_n", "high"), rb],
            "error E317: reset form at 18:3: ca\n3",
        ),
        (
            &[root, ra_n, rb, ("ub.r3", "low")],
            "error E403: no such input or reset: ub.r3\n4",
        ),
    ];
    for (resets, wanted) in rows {
        let con = with_resets(alloc, "clr", resets)?;
        let answer = audited(alloc, CHIP.as_bytes(), con.as_str())?;
        assert_eq!(&rt; answer.as_str(), wanted);
    }
    for (more, wanted) in [
        ("uf.m", "error E403: no such input or reset: uf.m\n4"),
        ("ra_n", "error E404: name declared twice: ra_n\n4"),
    ] {
        let declared = with_resets(alloc, "clr", &[root, ra_n, rb])?;
        let con = format!(in alloc; "{declared}[[static]]\nname = \"{more}\"\n")?;
        let answer = audited(alloc, CHIP.as_bytes(), con.as_str())?;
        assert_eq!(&rt; answer.as_str(), wanted, "{more}");
    }
    Ok(())
}

/// Signals that are made of the reset `e`, which is active low, and some that aren't reset nets.
#[test]
fn nets_of_resets(rt: HostRuntime) -> Result<(), Fail> {
    let alloc = rt.alloc();
    let clean = "clean crossings=0\n0";
    let con = with_resets(alloc, "d v", &[("e", "low")])?;
    let rises = "always @(posedge ca or posedge n) if (n) r <= 0; else r <= d;";
    let falls = "always @(posedge ca or negedge n) if (!n) r <= 0; else r <= d;";
    for (process, net, wanted) in [
        (rises, "wire n = ~e;", clean),
        (rises, "wire n; assign n = e ? 0 : 1;", clean),
        (rises, "wire n; nand (n, e, e);", clean),
        (rises, "wire n = ~e & ~e;", clean),
        (falls, "wire [0:0] n = e;", clean),
        (falls, "wire n = k, k = ~l, l = ~e;", clean),
        (
            falls,
            "wire k, l, n; assign n = k; assign k = ~l; assign l = ~e;",
            clean,
        ),
        (
            falls,
            "wire n = ~e;",
            "error E317: reset form at 1:66: ca\n3",
        ),
        (
            "always @(posedge ca or negedge e) if (n) r <= 0; else r <= d;",
            "wire n = ~e;",
            "error E317: reset form at 1:66: ca\n3",
        ),
        (
            "always @(posedge ca or negedge e) if (!e) r <= 0; else r <= n;",
            "wire n = ~e;",
            "error E317: reset form at 1:66: ca\n3",
        ),
        (
            "always @(posedge ca or negedge e) if (!e) r <= 0; else r <= n;",
            "wire n = d | ~e;",
            clean,
        ),
        (
            rises,
            "wire n; assign {n} = ~e;",
            "error E317: reset form at 1:78: ca\n3",
        ),
        (
            rises,
            "reg n; always @* n = ~e;",
            "error E317: reset form at 1:78: ca\n3",
        ),
        (
            rises,
            "wire n = e & ~e;",
            "error E317: reset form at 1:70: ca\n3",
        ),
        (
            rises,
            "wire n = ~1'b0;",
            "error E317: reset form at 1:69: ca\n3",
        ),
        (
            rises,
            "wire n = ~e | d;",
            "error E317: reset form at 1:70: ca\n3",
        ),
        (
            falls,
            "wire n = n & e;",
            "error E317: reset form at 1:69: ca\n3",
        ),
        (
            rises,
            "wire n; assign n = ~e, n = ~e;",
            "error E317: reset form at 1:84: ca\n3",
        ),
    ] {
        let text = format!(in alloc;
            "module m(input ca, cb, d, e, input [3:0] v); reg r; {net} {process} endmodule"
        )?;
        let answer = audited(alloc, text.as_bytes(), con.as_str())?;
        assert_eq!(&rt; answer.as_str(), wanted, "{net}");
    }
    Ok(())
}

/// The processes of a register under the reset `e`, which is active low.
#[test]
fn forms_of_resets(rt: HostRuntime) -> Result<(), Fail> {
    let alloc = rt.alloc();
    let clean = "clean crossings=0\n0";
    let con = with_resets(alloc, "d v", &[("e", "low")])?;
    for (process, wanted) in [
        (
            "always @(negedge e or posedge ca) if (!e) r <= 0; else r <= d;",
            clean,
        ),
        (
            "always @(negedge ca or negedge e) if (!e) r <= 0; else r <= d;",
            "error E316: clock form at 1:53: ca\n3",
        ),
        (
            "always @(posedge v or negedge e) if (!e) r <= 0; else r <= d;",
            "error E316: clock form at 1:53: v\n3",
        ),
        (
            "always @(posedge ca or negedge d) if (!d) r <= 0; else r <= v[0];",
            "error E317: reset form at 1:53: ca\n3",
        ),
        (
            "always @(posedge ca or negedge e) if (d) r <= 0; else r <= v[0];",
            "error E317: reset form at 1:53: ca\n3",
        ),
        (
            "always @(posedge ca or negedge e) if (!e || d) r <= 0; else r <= v[0];",
            clean,
        ),
        (
            "always @(posedge ca or negedge e) if (d | !e) r <= 0; else r <= v[0];",
            clean,
        ),
        (
            "always @(posedge ca) if (!e || d) r <= d;",
            "error E317: reset form at 1:53: ca\n3",
        ),
        ("always @(posedge ca) if (!e | v) r <= d;", clean),
        (
            "always @(posedge ca) if (!e || v) r <= d;",
            "error E317: reset form at 1:53: ca\n3",
        ),
        ("always @(posedge ca) if (!e & d) r <= d;", clean),
        (
            "always @(posedge ca or negedge e) casez (e) 1'b0: r <= 0; default: r <= d; endcase",
            clean,
        ),
        (
            "always @(posedge ca or negedge e) casez (~e) 2'b?1: r <= 0; default: r <= d; endcase",
            clean,
        ),
        (
            "always @(posedge ca or negedge e) casez (~e) 2'b11: r <= 0; 1'b0: r <= d; endcase",
            clean,
        ),
        (
            "always @(posedge ca or negedge e) casez (~e) 1'b1: r <= 0; 2'b00: r <= d; endcase",
            "error E317: reset form at 1:53: ca\n3",
        ),
        (
            "always @(posedge ca or negedge e) case (e) 1'b0: r <= 0; default: r <= d; endcase",
            "error E317: reset form at 1:53: ca\n3",
        ),
        (
            "always @(posedge ca) casez (e) 1'b0, 1'b?: r <= d; default: r <= d; endcase",
            "error E317: reset form at 1:53: ca\n3",
        ),
        (
            "always @(posedge ca or negedge e) if (!e) r <= 0; else r <= e;",
            clean,
        ),
        (
            "always @(posedge ca) if (!e) r <= d; wire w = z;",
            "error E305: unknown name at 1:90: z\n3",
        ),
        (
            "always @(posedge ca) if (!e) r <= d; wire w, x = w;",
            "error E317: reset form at 1:53: ca\n3",
        ),
        (
            "always @(posedge ca) if (!e) ;",
            "error E317: reset form at 1:53: ca\n3",
        ),
        (
            "reg f; always @(posedge cb) f <= f; always @(posedge ca or negedge e) if (!e || f) r <= 0; else r <= d;",
            "V1 f -> r: no scheme\n  path r <- Mux[0] <- Or[0] <- f\n  at 1:46\nviolations=1 crossings=1\n1",
        ),
    ] {
        let net = format!(in alloc;
            "module m(input ca, cb, d, e, input [3:0] v); reg r; {process} endmodule"
        )?;
        let answer = audited(alloc, net.as_bytes(), con.as_str())?;
        assert_eq!(&rt; answer.as_str(), wanted, "{process}");
    }
    Ok(())
}

/// The processes of a register under the resets `d` and `e`, both active low.
#[test]
fn forms_of_two_resets(rt: HostRuntime) -> Result<(), Fail> {
    let alloc = rt.alloc();
    let clean = "clean crossings=0\n0";
    let con = with_resets(alloc, "v", &[("d", "low"), ("e", "low")])?;
    for (process, wanted) in [
        (
            "always @(posedge ca) if (!d || !e) r <= 0; else r <= v;",
            clean,
        ),
        (
            "always @(posedge ca) if (!(d & e)) r <= 0; else r <= v;",
            clean,
        ),
        (
            "always @(posedge ca or negedge e) if (!d || !e) r <= 0; else r <= v;",
            "error E317: reset form at 1:41: ca\n3",
        ),
        (
            "always @(posedge ca) if (!e) r <= 0; else if (!d) r <= 1; else r <= v;",
            "error E317: reset form at 1:41: ca\n3",
        ),
        (
            "reg f, s; always @(posedge ca) if (!e) {s, r} <= 0; else {s, r} <= {f, d}; always @(posedge ca) f <= v;",
            "error E317: reset form at 1:51: ca\n3",
        ),
        (
            "always @(posedge ca) if (!e || d) r <= 0; else r <= v;",
            "error E317: reset form at 1:41: ca\n3",
        ),
        (
            "always @(posedge d or negedge e) if (!e) r <= 0; else r <= v;",
            "error E317: reset form at 1:41: d\n3",
        ),
    ] {
        let net = format!(in alloc; "module m(input ca, cb, d, e, v); reg r; {process} endmodule")?;
        let answer = audited(alloc, net.as_bytes(), con.as_str())?;
        assert_eq!(&rt; answer.as_str(), wanted, "{process}");
    }
    Ok(())
}

/// Registers that the first branch of the reset `e` alone assigns.
#[test]
fn registers_that_a_reset_alone_assigns(rt: HostRuntime) -> Result<(), Fail> {
    let alloc = rt.alloc();
    let con = with_resets(alloc, "d", &[("e", "low")])?;
    for items in [
        "reg x, hold; always @(posedge ca or negedge e) if (!e) hold <= 0; else x <= d; assign q = hold;",
        "reg x, r = 1; always @(posedge ca) if (!e) r <= 0; else x <= d; assign q = r;",
    ] {
        let net = format!(in alloc; "module m(input ca, cb, d, e, output q); {items} endmodule")?;
        let answer = audited(alloc, net.as_bytes(), con.as_str())?;
        assert_eq!(&rt; answer.as_str(), "clean crossings=0\n0", "{items}");
    }
    Ok(())
}

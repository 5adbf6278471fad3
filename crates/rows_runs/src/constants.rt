//! Registers and words of memories that no process assigns.
use crate::runs::audited;
use row_designs::constraints;
use std::test::Fail;

#[test]
fn registers_that_nothing_writes(rt: HostRuntime) -> Result<(), Fail> {
    let alloc = rt.alloc();
    let clean = "clean crossings=0\n0";
    let con = constraints(alloc, "d v")?;
    for (items, wanted) in [
        ("reg k = 1; assign q = k;", clean),
        ("reg k; initial k = 1; assign q = k;", clean),
        (
            "reg k; assign q = k;",
            "error E310: undriven bit is read at 1:53: k\n3",
        ),
        (
            "reg [1:0] k = 2; always @* k[0] = d; assign q = k[1];",
            "error E310: undriven bit is read at 1:53: k[1]\n3",
        ),
        (
            "reg [1:0] M [0:3]; initial begin M[0] = 1; M[1] = 2; M[2] = 3; M[3] = 0; end reg [1:0] r; always @(posedge ca) r <= M[v[1:0]];",
            clean,
        ),
        (
            "reg M [0:1]; initial M[0] = 1; assign q = M[d];",
            "error E310: undriven bit is read at 1:53: \\M[1] \n3",
        ),
        (
            "reg k = 0, m, s; always @(posedge cb) {s, m} <= {m, k}; assign q = s;",
            clean,
        ),
    ] {
        let text = format!(in alloc;
            "module m(input ca, cb, d, input [3:0] v, output q); {items} endmodule"
        )?;
        let answer = audited(alloc, text.as_bytes(), con.as_str())?;
        assert_eq!(&rt; answer.as_str(), wanted, "{items}");
    }
    Ok(())
}

//! Waivers, and clocks whose flops settle in up to three cycles.
use crate::runs::audited;
use row_designs::{TWO_FLOPS, constraints};
use std::alloc::Global;
use std::process::Abort;
use std::test::Fail;

/// A change of the netlist of two flops, the constraints behind the inputs, and the answer.
type Row<'a> = (&'a str, &'a str, &'a str, &'a str);

fn audit_all(
    rt: &impl Abort,
    alloc: Global,
    inputs: &str,
    net: &str,
    rows: &[Row],
) -> Result<(), Fail> {
    for (part, by, more, wanted) in rows {
        let net = net.replacen(alloc, *part, *by, 1)?;
        let mut con = constraints(alloc, inputs)?;
        con.push_str(*more)?;
        let answer = audited(alloc, net.as_bytes(), con.as_str())?;
        assert_eq!(rt; answer.as_str(), *wanted, "{net}{more}");
    }
    Ok(())
}

/// Two registers before one flop.
const LOGIC: &str = "module m(input ca, cb, d, e, output q);
reg a, en, s1, s2;
always @(posedge ca) begin a <= d; en <= e; end
always @(posedge cb) begin s1 <= a & en; s2 <= s1; end
assign q = s2;
endmodule
";

/// Names with a `*` and a `.` in them.
const NAMES: &str = "module m(input ca, cb, d, output q);
reg a, \\x*1 , \\x.1 ;
always @(posedge ca) a <= d;
always @(posedge cb) begin \\x*1  <= ~a; \\x.1  <= ~a; end
assign q = \\x*1  & \\x.1 ;
endmodule
";

const REVIEWED: &str =
    "[[waive]]\nfinding = \"V2 a -> s1: no second flop\"\nreason = \"reviewed\"\n";

#[test]
fn waivers(rt: HostRuntime) -> Result<(), Fail> {
    let alloc = rt.alloc();
    let twice = format!(in alloc; "{REVIEWED}{REVIEWED}")?;
    audit_all(
        &rt,
        rt.alloc(),
        "d",
        TWO_FLOPS,
        &[
            (
                "s2 <= s1",
                "s2 <= ~s1",
                REVIEWED,
                "V2 a -> s1: no second flop
  path s1 <- a
  at 2:1
  waived: reviewed
waived=1 crossings=1
9",
            ),
            (
                "",
                "",
                REVIEWED,
                "error E411: waiver meets no finding: V2 a -> s1: no second flop\n4",
            ),
            (
                "s2 <= s1",
                "s2 <= ~s1",
                twice.as_str(),
                "error E410: finding waived twice: V2 a -> s1: no second flop\n4",
            ),
        ],
    )?;
    audit_all(
        &rt,
        rt.alloc(),
        "d e",
        LOGIC,
        &[(
            "",
            "",
            "[[waive]]\nfinding = \"V1 a -> s1: no scheme\"\nreason = \"static while en is 0\"\n",
            "V1 a -> s1: no scheme
  path s1 <- And[0] <- a
  at 2:1
  waived: static while en is 0
V1 en -> s1: no scheme
  path s1 <- And[0] <- en
  at 2:1
violations=1 waived=1 crossings=2
1",
        )],
    )
}

/// A `*` stands for any run of bytes without a space; the first waiver that matches sets a finding aside.
#[test]
fn patterns(rt: HostRuntime) -> Result<(), Fail> {
    audit_all(
        &rt,
        rt.alloc(),
        "d",
        TWO_FLOPS,
        &[
            (
                "s2 <= s1",
                "s2 <= ~s1",
                "[[waive]]\nfinding = 'V2 * -> *: no second flop'\nreason = \"one\"\n",
                "V2 a -> s1: no second flop\n  path s1 <- a\n  at 2:1\n  waived: one\nwaived=1 crossings=1\n9",
            ),
            (
                "s2 <= s1",
                "s2 <= ~s1",
                "[[waive]]\nfinding = 'V2*a -> s1: no second flop'\nreason = \"one\"\n",
                "error E411: waiver meets no finding: V2*a -> s1: no second flop\n4",
            ),
            (
                "s2 <= s1",
                "s2 <= ~s1",
                "[[waive]]\nfinding = '*V2* a* -> s1*: no sec**ond flop'\nreason = \"one\"\n",
                "V2 a -> s1: no second flop\n  path s1 <- a\n  at 2:1\n  waived: one\nwaived=1 crossings=1\n9",
            ),
            (
                "s2 <= s1",
                "s2 <= ~s1",
                "[[waive]]\nfinding = 'V2 *'\nreason = \"one\"\n",
                "error E411: waiver meets no finding: V2 *\n4",
            ),
        ],
    )?;
    audit_all(
        &rt,
        rt.alloc(),
        "d e",
        LOGIC,
        &[
            (
                "",
                "",
                "[[waive]]\nfinding = 'V1 * -> s1: no scheme'\nreason = \"one\"\n[[waive]]\nfinding = 'V1 en -> s1: no scheme'\nreason = \"two\"\n",
                "V1 a -> s1: no scheme\n  path s1 <- And[0] <- a\n  at 2:1\n  waived: one\nV1 en -> s1: no scheme\n  path s1 <- And[0] <- en\n  at 2:1\n  waived: one\nwaived=2 crossings=2\n9",
            ),
            (
                "",
                "",
                "[[waive]]\nfinding = 'V1 en -> s1: no scheme'\nreason = \"one\"\n[[waive]]\nfinding = 'V1 * -> s1: no scheme'\nreason = \"two\"\n",
                "V1 a -> s1: no scheme\n  path s1 <- And[0] <- a\n  at 2:1\n  waived: two\nV1 en -> s1: no scheme\n  path s1 <- And[0] <- en\n  at 2:1\n  waived: one\nwaived=2 crossings=2\n9",
            ),
            (
                "",
                "",
                "[[waive]]\nfinding = 'V1 e* -> s1: no scheme'\nreason = \"one\"\n",
                "V1 a -> s1: no scheme\n  path s1 <- And[0] <- a\n  at 2:1\nV1 en -> s1: no scheme\n  path s1 <- And[0] <- en\n  at 2:1\n  waived: one\nviolations=1 waived=1 crossings=2\n1",
            ),
        ],
    )?;
    audit_all(
        &rt,
        rt.alloc(),
        "d",
        NAMES,
        &[
            (
                "",
                "",
                "[[waive]]\nfinding = 'V1 a -> *: no scheme'\nreason = \"one\"\n",
                "error E411: waiver meets no finding: V1 a -> *: no scheme\n4",
            ),
            (
                "",
                "",
                "[[waive]]\nfinding = 'V1 a -> * : no scheme'\nreason = \"one\"\n",
                "V1 a -> \\x*1 : no scheme\n  path \\x*1  <- Not[0] <- a\n  at 2:1\n  waived: one\nV1 a -> \\x.1 : no scheme\n  path \\x.1  <- Not[0] <- a\n  at 2:1\n  waived: one\nwaived=2 crossings=2\n9",
            ),
            (
                "",
                "",
                "[[waive]]\nfinding = 'V1 a -> \\x.1 : no scheme'\nreason = \"one\"\n",
                "V1 a -> \\x*1 : no scheme\n  path \\x*1  <- Not[0] <- a\n  at 2:1\nV1 a -> \\x.1 : no scheme\n  path \\x.1  <- Not[0] <- a\n  at 2:1\n  waived: one\nviolations=1 waived=1 crossings=2\n1",
            ),
        ],
    )
}

#[test]
fn slow_settling(rt: HostRuntime) -> Result<(), Fail> {
    let alloc = rt.alloc();
    let con = constraints(alloc, "d")?.replacen(
        alloc,
        "group = \"B\"",
        "group = \"B\"\nsettle = 2",
        1,
    )?;
    let answer = audited(alloc, TWO_FLOPS.as_bytes(), con.as_str())?;
    assert_eq!(rt;
        answer.as_str(),
        "V2 a -> s1: fewer than 3 flops\n  path s1 <- a\n  at 2:1\nviolations=1 crossings=1\n1"
    );
    let net = TWO_FLOPS
        .replacen(alloc, "s1, s2", "s1, s2, s3", 1)?
        .replacen(alloc, "s2 <= s1;", "s2 <= s1; s3 <= s2;", 1)?
        .replacen(alloc, "q = s2", "q = s3", 1)?;
    let answer = audited(alloc, net.as_bytes(), con.as_str())?;
    assert_eq!(rt;
        answer.as_str(),
        "cover a -> s1 two-flop 3\nclean crossings=1\n0"
    );
    Ok(())
}

//! Certificates that hold, and those that fail.
use crate::runs::checked;
use row_designs::{FIFO, FIFO_CONSTRAINTS, HANDSHAKE, TWO_FLOPS, constraints};
use std::alloc::Global;
use std::process::Abort;
use std::test::Fail;

/// The certificate of `FIFO`.
pub const OF_FIFO: &str = "cdc certificate 1
sync rg[0] : r1[0] r2[0]
sync rg[1] : r1[1] r2[1]
sync rg[2] : r1[2] r2[2]
sync wg[0] : w1[0] w2[0]
sync wg[1] : w1[1] w2[1]
sync wg[2] : w1[2] w2[2]
gray wg of wb G2
gray rg of rb G2
fifo wb rb
end
";

/// The certificate of `HANDSHAKE`.
pub const OF_HANDSHAKE: &str = "cdc certificate 1
sync s3 : k1 k2
sync req : s1 s2
ring req s1 s2 s3 k1 k2 end 2 ack 3
load data[0] -> x[0] ring 1 gate 2
load data[1] -> x[1] ring 1 gate 2
end
";

/// A waiver that meets no finding.
const UNMET: &str = "[[waive]]\nfinding = \"V2 a -> s1: no second flop\"\nreason = \"reviewed\"\n";

/// The text with the part, where it stands first, replaced.
fn edited(
    rt: &impl Abort,
    alloc: Global,
    text: &str,
    part: &str,
    by: &str,
) -> Result<String, Fail> {
    assert!(rt; text.contains(part), "{part}");
    Ok(text.replacen(alloc, part, by, 1)?)
}

#[test]
fn synchronizers(rt: HostRuntime) -> Result<(), Fail> {
    let alloc = rt.alloc();
    let con = constraints(alloc, "d")?;
    for (lines, wanted) in [
        ("sync a : s1 s2\nend\n", "certificate holds crossings=1\n0"),
        ("end\n", "certificate fails: crossing a -> s1\n1"),
        ("sync a : s1\nend\n", "certificate fails: line 2\n1"),
        ("sync a : s1 ca\nend\n", "certificate fails: line 2\n1"),
        (
            "sync a : s1 s2\nsync a : s1 s2\nend\n",
            "certificate fails: word a -> B\n1",
        ),
        (
            "sync a : s1 s2\ngray s2 of s1 G2\nend\n",
            "certificate fails: line 3\n1",
        ),
    ] {
        let cert = format!(in alloc; "cdc certificate 1\n{lines}")?;
        let answer = checked(alloc, TWO_FLOPS, con.as_str(), cert.as_str())?;
        assert_eq!(rt; answer.as_str(), wanted, "{lines}");
    }
    Ok(())
}

/// The first line that breaks a rule refuses the text.
#[test]
fn texts_that_are_none(rt: HostRuntime) -> Result<(), Fail> {
    let alloc = rt.alloc();
    let con = constraints(alloc, "d")?;
    for (cert, line) in [
        ("", 1),
        ("cdc certificate 2\nend\n", 1),
        ("cdc certificate 1\n", 2),
        ("cdc certificate 1\nsync a : zz\nend\n", 2),
        ("cdc certificate 1\nsync a :\nend\n", 2),
        ("cdc certificate 1\nsync a  : s1 s2\nend\n", 2),
        ("cdc certificate 1\nsync a : s1 s2\nend", 3),
        ("cdc certificate 1\nsync a : s1 s2\nend\n\n", 4),
        ("cdc certificate 1\nsync a : s1 s2\nend\nend\n", 4),
        (
            "cdc certificate 1\ngray s1 of a G2\nsync a : s1 s2\nend\n",
            3,
        ),
        ("cdc certificate 1\ngray s1 of a G4\nend\n", 2),
        ("cdc certificate 1\nring a s1 s2 end 2 ack 3\nend\n", 2),
        ("cdc certificate 1\nload a -> s1 ring 1 gate 0\nend\n", 2),
        ("cdc certificate 1\nring a s1 s2 end 02 ack 1\nend\n", 2),
    ] {
        let answer = checked(alloc, TWO_FLOPS, con.as_str(), cert)?;
        let wanted = format!(in alloc; "error E510: not a certificate: line {line}\n5")?;
        assert_eq!(rt; answer.as_str(), wanted.as_str(), "{cert}");
    }
    Ok(())
}

#[test]
fn handshakes(rt: HostRuntime) -> Result<(), Fail> {
    let alloc = rt.alloc();
    let con = constraints(alloc, "send d")?;
    for (part, by, wanted) in [
        ("", "", "certificate holds crossings=4\n0"),
        ("end 2", "end 1", "certificate fails: line 4\n1"),
        ("gate 2", "gate 1", "certificate fails: line 5\n1"),
        (
            "ring 1",
            "ring 2",
            "error E510: not a certificate: line 5\n5",
        ),
        (
            "load data[1] -> x[1] ring 1 gate 2\n",
            "",
            "certificate fails: crossing data[1] -> x[1]\n1",
        ),
        ("sync s3 : k1 k2\n", "", "certificate fails: line 3\n1"),
    ] {
        let cert = edited(&rt, alloc, OF_HANDSHAKE, part, by)?;
        let answer = checked(alloc, HANDSHAKE, con.as_str(), cert.as_str())?;
        assert_eq!(&rt; answer.as_str(), wanted, "{part}");
    }
    Ok(())
}

#[test]
fn fifos(rt: HostRuntime) -> Result<(), Fail> {
    let alloc = rt.alloc();
    for (part, by, wanted) in [
        ("", "", "certificate holds crossings=14\n0"),
        (
            "fifo wb rb\n",
            "",
            "certificate fails: crossing \\mem[0] [0] -> x[0]\n1",
        ),
        ("gray wg of wb G2\n", "", "certificate fails: line 9\n1"),
        ("gray rg of rb G2\n", "", "certificate fails: line 9\n1"),
        (
            "sync wg[1] : w1[1] w2[1]\n",
            "",
            "certificate fails: line 9\n1",
        ),
        (
            "sync rg[0] : r1[0] r2[0]\n",
            "sync rg[0] : r1[0] r2[0]\nsync rg[0] : r1[0] r2[0]\n",
            "certificate fails: line 11\n1",
        ),
        ("fifo wb rb", "fifo rb wb", "certificate fails: line 10\n1"),
        ("fifo wb rb", "fifo wg rg", "certificate fails: line 10\n1"),
        (
            "fifo wb rb",
            "fifo wb[0] rb",
            "error E510: not a certificate: line 10\n5",
        ),
        (
            "gray rg of rb G2\nfifo wb rb\n",
            "fifo wb rb\ngray rg of rb G2\n",
            "error E510: not a certificate: line 10\n5",
        ),
        (
            "fifo wb rb\n",
            "fifo wb rb\nfifo wb rb\n",
            "certificate holds crossings=14\n0",
        ),
    ] {
        let cert = edited(&rt, alloc, OF_FIFO, part, by)?;
        let answer = checked(alloc, FIFO, FIFO_CONSTRAINTS, cert.as_str())?;
        assert_eq!(&rt; answer.as_str(), wanted, "{part} {by}");
    }
    Ok(())
}

/// A FIFO stands over the listed synchronizers, whatever else the design has.
#[test]
fn fifos_over_the_listed(rt: HostRuntime) -> Result<(), Fail> {
    let alloc = rt.alloc();
    let net = edited(
        &rt,
        alloc,
        FIFO,
        "assign q",
        "reg z1 = 0, z2 = 0; always @(posedge cb) begin z1 <= wg[0]; z2 <= z1; end\nassign q",
    )?;
    let answer = checked(alloc, net.as_str(), FIFO_CONSTRAINTS, OF_FIFO)?;
    assert_eq!(&rt;
        answer.as_str(),
        "certificate fails: crossing wg[0] -> z1\n1"
    );
    Ok(())
}

/// The netlist and the constraints are refused first, and waivers are read and mean nothing.
#[test]
fn what_comes_first(rt: HostRuntime) -> Result<(), Fail> {
    let alloc = rt.alloc();
    let con = constraints(alloc, "d")?;
    let cert = "cdc certificate 1\nsync a : s1 s2\nend\n";
    let waived = format!(in alloc; "{con}{UNMET}")?;
    let twice = format!(in alloc; "{con}{UNMET}{UNMET}")?;
    for (net, con, cert, wanted) in [
        (
            "module m",
            con.as_str(),
            "none",
            "error E201: no reading at 1:9\n3",
        ),
        (TWO_FLOPS, "top", "none", "error E401: not TOML\n4"),
        (
            TWO_FLOPS,
            waived.as_str(),
            cert,
            "certificate holds crossings=1\n0",
        ),
        (
            TWO_FLOPS,
            twice.as_str(),
            cert,
            "error E410: finding waived twice: V2 a -> s1: no second flop\n4",
        ),
    ] {
        let answer = checked(alloc, net, con, cert)?;
        assert_eq!(rt; answer.as_str(), wanted, "{con}");
    }
    Ok(())
}

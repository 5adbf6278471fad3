//! Certificates as they are written.
use crate::checks::{OF_FIFO, OF_HANDSHAKE};
use crate::runs::{certified, checked};
use row_designs::{
    FIFO, FIFO_CONSTRAINTS, FIFO_IN_MODULES, GRAY_COUNTER, HANDSHAKE, TWO_FLOPS, constraints,
};
use std::alloc::Global;
use std::test::Fail;

const OF_FIFO_IN_MODULES: &str = "cdc certificate 1
sync rd.ptr[0] : r2w.m[0] r2w.q[0]
sync rd.ptr[1] : r2w.m[1] r2w.q[1]
sync rd.ptr[2] : r2w.m[2] r2w.q[2]
sync wr.ptr[0] : w2r.m[0] w2r.q[0]
sync wr.ptr[1] : w2r.m[1] w2r.q[1]
sync wr.ptr[2] : w2r.m[2] w2r.q[2]
gray wr.ptr of wr.bin G1
gray rd.ptr of rd.bin G1
fifo wr.bin rd.bin
end
";

#[test]
fn schemes_in_their_orders(rt: HostRuntime) -> Result<(), Fail> {
    let alloc = rt.alloc();
    let con = constraints(alloc, "d")?;
    let answer = certified(alloc, TWO_FLOPS, con.as_str())?;
    assert_eq!(&rt;
        answer.as_str(),
        "cdc certificate 1\nsync a : s1 s2\nend\n0"
    );
    let con = constraints(alloc, "send d")?;
    let answer = certified(alloc, HANDSHAKE, con.as_str())?;
    let wanted = format!(in alloc; "{OF_HANDSHAKE}0")?;
    assert_eq!(&rt; answer.as_str(), wanted.as_str());
    let answer = certified(alloc, FIFO, FIFO_CONSTRAINTS)?;
    let wanted = format!(in alloc; "{OF_FIFO}0")?;
    assert_eq!(&rt; answer.as_str(), wanted.as_str());
    Ok(())
}

/// What is written holds.
#[test]
fn what_is_written_holds(rt: HostRuntime) -> Result<(), Fail> {
    let alloc = rt.alloc();
    let con = format!(in alloc;
        "{FIFO_CONSTRAINTS}[[reset]]\nname = \"rst_n\"\nactive = \"low\"\n"
    )?;
    let answer = certified(alloc, FIFO_IN_MODULES, con.as_str())?;
    let wanted = format!(in alloc; "{OF_FIFO_IN_MODULES}0")?;
    assert_eq!(&rt; answer.as_str(), wanted.as_str());
    let answer = checked(alloc, FIFO_IN_MODULES, con.as_str(), OF_FIFO_IN_MODULES)?;
    assert_eq!(&rt; answer.as_str(), "certificate holds crossings=14\n0");
    let con = constraints(alloc, "inc")?;
    let answer = certified(alloc, GRAY_COUNTER, con.as_str())?;
    let cert = answer.as_str().strip_suffix("0").unwrap_or("");
    let answer = checked(alloc, GRAY_COUNTER, con.as_str(), cert)?;
    assert_eq!(&rt; answer.as_str(), "certificate holds crossings=4\n0");
    Ok(())
}

/// A design with findings has no certificate, whether a waiver sets them aside or not.
#[test]
fn findings_stand_against_one(rt: HostRuntime) -> Result<(), Fail> {
    let alloc = rt.alloc();
    let net = FIFO.replacen(alloc, "if (pop && !empty)", "if (pop)", 1)?;
    let answer = certified(alloc, net.as_str(), FIFO_CONSTRAINTS)?;
    assert_eq!(&rt; answer.as_str(), "no certificate: 8 findings\n1");
    let con = constraints(alloc, "d")?;
    let net = TWO_FLOPS.replacen(alloc, "s2 <= s1", "s2 <= d", 1)?;
    let answer = certified(alloc, net.as_str(), con.as_str())?;
    assert_eq!(&rt; answer.as_str(), "no certificate: 2 findings\n1");
    let waived = format!(in alloc; "{con}[[waive]]\nfinding = \"V2 *\"\nreason = \"all\"\n")?;
    let answer = certified(alloc, net.as_str(), waived.as_str())?;
    assert_eq!(&rt; answer.as_str(), "no certificate: 2 findings\n1");
    Ok(())
}

//! Campaigns, and the replays of what they find.
use crate::runs::{campaigned, replayed};
use row_designs::{FIFO, FIFO_CONSTRAINTS, FIFO_IN_MODULES, TWO_FLOPS, constraints};
use std::test::Fail;

#[test]
fn clean_designs_show_nothing(rt: HostRuntime) -> Result<(), Fail> {
    let alloc = rt.alloc();
    let on_ca = constraints(alloc, "d")?;
    let with_reset = format!(in alloc;
        "{FIFO_CONSTRAINTS}[[reset]]\nname = \"rst_n\"\nactive = \"low\"\n"
    )?;
    for (net, con, seed) in [
        (TWO_FLOPS, on_ca.as_str(), 0),
        (TWO_FLOPS, on_ca.as_str(), 4_294_967_295),
        (FIFO, FIFO_CONSTRAINTS, 1),
        (FIFO_IN_MODULES, with_reset.as_str(), 1),
    ] {
        let answer = campaigned(alloc, net, con, 1000, seed)?;
        assert_eq!(rt;
            answer.as_str(),
            "no loose capture in 8 runs of 1000 steps\n0",
            "{seed}"
        );
    }
    Ok(())
}

/// A flop that logic reads captures the bit of the other clock as soon as both clocks tick: the words of the generator, by
/// hand, give the run and its step.
#[test]
fn a_flop_that_logic_reads(rt: HostRuntime) -> Result<(), Fail> {
    let alloc = rt.alloc();
    let con = constraints(alloc, "d")?;
    let net = TWO_FLOPS.replacen(alloc, "a <= d", "a <= ~a", 1)?;
    let net = net.replacen(alloc, "s2 <= s1", "s2 <= ~s1", 1)?;
    for (seed, record, steps) in [
        (
            1,
            "{\"steps\":[{\"edges\":[\"ca\",\"cb\"],\"inputs\":{\"d\":1},\"races\":[{\"bit\":\"s1\",\"flip\":[\"a\"]}]}]}\n",
            1,
        ),
        (
            376,
            "{\"steps\":[{\"edges\":[\"ca\"],\"inputs\":{\"d\":1},\"races\":[]},{\"edges\":[\"cb\"],\"inputs\":{},\"races\":[]},{\"edges\":[\"ca\",\"cb\"],\"inputs\":{\"d\":0},\"races\":[{\"bit\":\"s1\",\"flip\":[\"a\"]}]}]}\n",
            3,
        ),
    ] {
        let answer = campaigned(alloc, net.as_str(), con.as_str(), 4, seed)?;
        let wanted = format!(in alloc; "{record}1")?;
        assert_eq!(rt; answer.as_str(), wanted.as_str(), "{seed}");
        let answer = replayed(alloc, net.as_str(), con.as_str(), record)?;
        let wanted = format!(in alloc; "end steps={steps}\n0")?;
        assert!(rt; answer.ends_with(wanted.as_str()), "{seed}{answer}");
    }
    Ok(())
}

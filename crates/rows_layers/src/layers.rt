//! Single layers, each on a design that says most about it.
use cdc_base::{Bit, List, Name, ResetPin, Signal};
use cdc_model::{Given, Race};
use cell_graph::{Net, Values};
use cofactor::Plain;
use domains::Domains;
use flat_design::{Flat, flatten};
use row_designs::{CHIP, HANDSHAKE, TWO_FLOPS, constraints};
use settling_sim::{Sim, StepFault};
use std::alloc::Global;
use std::test::Fail;
use verilog_ast::{ItemBody, Source, Stmt};

/// The source that a text reads as, of which no more is read than a file may have.
fn read_source(alloc: Global, text: &str) -> Result<Source, Fail> {
    let bytes = text.as_bytes();
    let bytes = bytes.get(..bytes.len().min(268_435_456)).unwrap_or(&[]);
    let tokens = verilog_lex::lex(alloc, bytes)?;
    Ok(verilog_parse::parse(alloc, tokens.as_slice())?)
}

fn flattened(alloc: Global, text: &str, top: &str, resets: &[ResetPin]) -> Result<Flat, Fail> {
    let source = read_source(alloc, text)?;
    let top = Name::from_text(alloc, top)?;
    Ok(flatten(alloc, &source, &top, resets, &[])?)
}

fn net_of(alloc: Global, text: &str) -> Result<Net, Fail> {
    let flat = flattened(alloc, text, "m", &[])?;
    Ok(elaborate::elaborate(alloc, &flat)?)
}

fn domains_of(alloc: Global, net: &Net, inputs: &str) -> Result<Domains, Fail> {
    let con = constraints(alloc, inputs)?;
    let constraints = clock_constraints::read(alloc, con.as_bytes())?;
    Ok(domains::assign(alloc, net, &constraints, &Plain)?)
}

/// Whether the statement is an `if` with an `else`.
fn has_else(stmt: &Stmt) -> bool {
    match stmt {
        Stmt::If { other, .. } => other.is_some(),
        _ => false,
    }
}

/// The `else` of two nested `if`s belongs to the inner one.
#[test]
fn an_else_belongs_to_the_nearest_if(rt: HostRuntime) -> Result<(), Fail> {
    let text = "module m; always @(posedge c) if (a) if (b) q <= a; else q <= b; endmodule";
    let source = read_source(rt.alloc(), text)?;
    let mut seen = false;
    for parsed in source.modules.as_slice() {
        for item in parsed.items.as_slice() {
            if let ItemBody::Always {
                body: Stmt::If { yes, other, .. },
                ..
            } = &item.body
            {
                assert_eq!(&rt; other.is_some(), false);
                assert_eq!(&rt; has_else(&**yes), true);
                seen = true;
            }
        }
    }
    assert_eq!(&rt; seen, true);
    Ok(())
}

fn start_of<'a>(signals: &'a [Signal], name: &str) -> Option<(u64, u64)> {
    for signal in signals {
        if signal.name.as_str() == name {
            return Some((signal.known, signal.start));
        }
    }
    None
}

#[test]
fn resets_give_start_values(rt: HostRuntime) -> Result<(), Fail> {
    let alloc = rt.alloc();
    let reset = ResetPin {
        name: Name::from_text(alloc, "rst_n")?,
        high: false,
    };
    let flat = flattened(alloc, CHIP, "chip", &[reset])?;
    let signals = flat.signals.as_slice();
    for (name, known) in [
        ("bin", 15),
        ("ptr", 15),
        ("u1.m", 15),
        ("u1.s", 15),
        ("\\u.2 .m", 1),
        ("\\u.2 .s", 1),
    ] {
        assert_eq!(&rt; start_of(signals, name), Some((known, 0)), "{name}");
    }
    assert_eq!(&rt; start_of(signals, "lvl"), Some((0, 0)));
    Ok(())
}

/// The later of two assignments to one bit wins.
#[test]
fn the_later_assignment_wins(rt: HostRuntime) -> Result<(), Fail> {
    let alloc = rt.alloc();
    let net = net_of(
        alloc,
        "module m(input ca, cb, d); reg r; always @(posedge ca) begin r <= d; r <= ~d; end endmodule",
    )?;
    let mut values = Values::open(alloc, &net.graph)?;
    for (d, next) in [(0, 1), (1, 0)] {
        values.fill(&net.graph, &[0, 0, d, 0]);
        for reg in net.regs.as_slice() {
            assert_eq!(&rt; values.value(reg.next), next);
        }
    }
    assert_eq!(&rt; net.regs.len(), 1);
    Ok(())
}

/// The value of the design's first output while its inputs, the first signals, have these values.
fn output_of(alloc: Global, net: &Net, words: &[u64]) -> Result<u64, Fail> {
    let mut values = Values::open(alloc, &net.graph)?;
    values.fill(&net.graph, words);
    match net.outputs.as_slice() {
        [first, ..] => Ok(values.value(*first)),
        [] => Ok(0),
    }
}

/// A unary minus is a difference from 0 of the operand's size, at the size of the whole.
#[test]
fn a_minus_is_a_difference_from_0(rt: HostRuntime) -> Result<(), Fail> {
    let alloc = rt.alloc();
    let net = net_of(
        alloc,
        "module m(input [3:0] v, output [7:0] o); assign o = -v[3 -: 2] <<< 1; endmodule",
    )?;
    for (v, o) in [(0, 0), (4, 254), (11, 252), (15, 250)] {
        assert_eq!(&rt; output_of(alloc, &net, &[v, 0])?, o, "{v}");
    }
    Ok(())
}

/// A part by a base and a count has the bits with these indices, in a range of either direction.
#[test]
fn parts_count_by_indices(rt: HostRuntime) -> Result<(), Fail> {
    let alloc = rt.alloc();
    let net = net_of(
        alloc,
        "module m(input [7:0] v, input [2:9] w, output [7:0] o); assign o = {v[1 +: 2], v[7 -: 2], w[2 +: 2], w[9 -: 2]}; endmodule",
    )?;
    for (v, w, o) in [
        (6, 0, 192),
        (192, 0, 48),
        (0, 192, 12),
        (0, 3, 3),
        (73, 60, 16),
    ] {
        assert_eq!(&rt; output_of(alloc, &net, &[v, w, 0])?, o, "{v} {w}");
    }
    Ok(())
}

/// The first label of a `casez` that agrees where it isn't open decides.
#[test]
fn the_first_mask_decides(rt: HostRuntime) -> Result<(), Fail> {
    let alloc = rt.alloc();
    let net = net_of(
        alloc,
        "module m(input [3:0] v, output reg [2:0] o); always @* casez (v) 4'b1??0, 4'b0001: o = 1; 4'b?1zZ: o = 2; 4'b?0: o = 3; default: o = 4; endcase endmodule",
    )?;
    for (v, o) in [
        (8, 1),
        (14, 1),
        (1, 1),
        (15, 2),
        (4, 2),
        (0, 3),
        (2, 3),
        (3, 4),
        (9, 4),
    ] {
        assert_eq!(&rt; output_of(alloc, &net, &[v, 0])?, o, "{v}");
    }
    Ok(())
}

/// A list of levels with all that its process reads counts as `@*`, where the later assignment wins.
#[test]
fn levels_count_as_a_star(rt: HostRuntime) -> Result<(), Fail> {
    let alloc = rt.alloc();
    let net = net_of(
        alloc,
        "module m(input [1:0] v, w, output reg o); reg s; always @(w or v) begin s = v[0] ^ w[0]; o <= s; if (v[1]) o <= w[1]; end endmodule",
    )?;
    for (v, w, o) in [
        (0, 1, 1),
        (1, 1, 0),
        (1, 3, 0),
        (2, 1, 0),
        (2, 3, 1),
        (3, 2, 1),
    ] {
        assert_eq!(&rt; output_of(alloc, &net, &[v, w, 0])?, o, "{v} {w}");
    }
    Ok(())
}

/// How many rings the netlist has.
fn ring_count(alloc: Global, text: &str) -> Result<usize, Fail> {
    let net = net_of(alloc, text)?;
    let domains = domains_of(alloc, &net, "send d")?;
    let crossings = crossings::find(alloc, &net, &domains)?;
    let syncs = two_flop::syncs(alloc, &net, &domains, crossings.as_slice())?;
    Ok(handshake::rings(alloc, &net, &domains, syncs.as_slice())?.len())
}

#[test]
fn rings_need_their_own_acknowledgement(rt: HostRuntime) -> Result<(), Fail> {
    let alloc = rt.alloc();
    for (part, by, count) in [
        ("", "", 1),
        ("k1 <= s3", "k1 <= s2", 0),
        ("s3 = 0", "s3 = 1", 0),
    ] {
        let text = HANDSHAKE.replacen(alloc, part, by, 1)?;
        assert_eq!(&rt; ring_count(alloc, text.as_str())?, count, "{by}");
    }
    Ok(())
}

/// Bit 0 of the signal with this name.
fn bit_of(net: &Net, name: &str) -> Option<Bit> {
    for (place, signal) in net.graph.signals().iter().enumerate() {
        if signal.name.as_str() == name {
            let sig = u32::try_from(place).ok()?;
            return Some(Bit { sig, at: 0 });
        }
    }
    None
}

/// What a first flop holds once its source changes while both clocks tick, by the bits that its race flips and the
/// other ones: its value, and the cycles that it may still need. A step without an edge then changes nothing.
fn sampled(
    alloc: Global,
    net: &Net,
    domains: &Domains,
    flip: &str,
    other: &str,
) -> Result<Option<(bool, u8)>, Fail> {
    let text = format!(in alloc;
        "{{\"steps\":[{{\"edges\":[\"ca\"],\"inputs\":{{\"d\":1}}}},
        {{\"edges\":[\"ca\",\"cb\"],\"races\":[{{\"bit\":\"s1\",\"flip\":[{flip}],\"else\":[{other}]}}]}}]}}"
    )?;
    let record = run_file::read(alloc, text.as_bytes(), net, domains)?;
    let mut sim = Sim::open(alloc, net, domains, record.start.as_slice())?;
    for step in record.steps.as_slice() {
        let edges = step.edges.as_slice();
        if sim
            .step(edges, step.inputs.as_slice(), step.races.as_slice())
            .is_err()
        {
            return Ok(None);
        }
    }
    match bit_of(net, "s1") {
        Some(first) if sim.step(&[], &[], &[]).is_err() => {
            Ok(Some((sim.value(first), sim.left(first))))
        }
        _ => Ok(None),
    }
}

#[test]
fn a_changing_bit_is_sampled_either_way(rt: HostRuntime) -> Result<(), Fail> {
    let alloc = rt.alloc();
    let net = net_of(alloc, TWO_FLOPS)?;
    let domains = domains_of(alloc, &net, "d")?;
    for (flip, other, wanted) in [
        ("\"a\"", "", Some((true, 1))),
        ("", "\"a\"", Some((false, 1))),
        ("\"s2\"", "\"a\"", None),
    ] {
        assert_eq!(&rt;
            sampled(alloc, &net, &domains, flip, other)?,
            wanted,
            "{flip}"
        );
    }
    Ok(())
}

fn race(alloc: Global, bit: Bit, flip: &[Bit], other: &[Bit]) -> Result<Race, Fail> {
    Ok(Race {
        bit,
        flip: List::from_vec(Vec::from_slice(alloc, flip)?),
        other: Some(List::from_vec(Vec::from_slice(alloc, other)?)),
    })
}

/// Whether each refusal comes: without an edge, by an input and by a race that don't tick or aren't loose, and by other
/// bits that give the same value.
fn refuses(sim: &mut Sim, input: Given, races: &[Race], same: &[Race]) -> bool {
    let still = Bit {
        sig: input.sig,
        at: 0,
    };
    sim.step(&[], &[], &[]).err() == Some(StepFault::NoEdge)
        && sim.step(&[1], &[input], &[]).err() == Some(StepFault::Unticked(still))
        && matches!(sim.step(&[1], &[], races), Err(StepFault::NotLoose(_, _)))
        && matches!(sim.step(&[0, 1], &[], same), Err(StepFault::NotOther(_)))
}

/// 100,000 steps of one simulator, in which a flop samples a toggling bit; each second one comes behind all refusals.
#[test]
fn many_steps_and_refusals(rt: HostRuntime) -> Result<(), Fail> {
    let alloc = rt.alloc();
    let net = net_of(alloc, TWO_FLOPS)?;
    let domains = domains_of(alloc, &net, "d")?;
    let input = bit_of(&net, "d").ok_or("d")?;
    let source = bit_of(&net, "a").ok_or("a")?;
    let first = bit_of(&net, "s1").ok_or("s1")?;
    let races = [race(alloc, first, &[source], &[])?];
    let same = [race(alloc, first, &[source], &[source])?];
    let mut sim = Sim::open(alloc, &net, &domains, &[])?;
    for turn in 0..50_000u64 {
        let given = Given {
            sig: input.sig,
            value: (turn + 1) % 2,
        };
        assert!(&rt; sim.step(&[0], &[given], &[]).is_ok());
        assert!(&rt; refuses(&mut sim, given, &races, &same));
        assert!(&rt; sim.step(&[0, 1], &[], &races).is_ok());
    }
    assert!(&rt; !sim.value(source) && !sim.value(first) && sim.unsettled(first));
    Ok(())
}

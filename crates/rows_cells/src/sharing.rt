//! Cells that are kept once, however often they are used.
use cdc_base::limits::MAX_CELLS;
use cdc_base::{Bit, List, Name, Place, SigKind, Signal, Stop};
use cell_graph::{Cell, CellId, Graph, Net, Node, Reg};
use clock_constraints::ClockPin;
use cofactor::{Cube, Fixed, Table, known};
use domains::Domains;
use std::alloc::Global;
use std::test::Fail;

fn signal(alloc: Global, name: &str, kind: SigKind) -> Result<Signal, Fail> {
    Ok(Signal {
        name: Name::from_text(alloc, name)?,
        place: Place { line: 1, column: 1 },
        width: 1,
        ranged: false,
        left: 0,
        right: 0,
        kind,
        known: 0,
        start: 0,
    })
}

/// Two clocks, `a` on the first and `x` on the second, all of one bit.
fn signals(alloc: Global) -> Result<List<Signal>, Fail> {
    let mut signals = List::new(alloc);
    signals.push(signal(alloc, "ca", SigKind::Input)?)?;
    signals.push(signal(alloc, "cb", SigKind::Input)?)?;
    signals.push(signal(alloc, "a", SigKind::Register)?)?;
    signals.push(signal(alloc, "x", SigKind::Register)?)?;
    Ok(signals)
}

fn fixed(alloc: Global, bits: &[Fixed]) -> Result<Cube, Fail> {
    let mut fixed = List::new(alloc);
    for bit in bits {
        fixed.push(*bit)?;
    }
    Ok(Cube { fixed })
}

/// A net in which `x` takes `a`, combined with itself 64 times over: a tree of 2^64 leaves.
fn doubled(alloc: Global) -> Result<Net, Fail> {
    let mut graph = Graph::new(alloc, signals(alloc)?)?;
    let ca = graph.add(Cell::Var { sig: 0 })?;
    let cb = graph.add(Cell::Var { sig: 1 })?;
    let a = graph.add(Cell::Var { sig: 2 })?;
    let mut last = a;
    for _ in 0..64 {
        last = graph.add(Cell::Xor { a: last, b: last })?;
    }
    let mut regs = List::new(alloc);
    regs.push(Reg {
        sig: 2,
        next: a,
        clock: ca,
    })?;
    regs.push(Reg {
        sig: 3,
        next: last,
        clock: cb,
    })?;
    Ok(Net {
        graph,
        regs,
        outputs: List::new(alloc),
    })
}

fn pin(alloc: Global, name: &str, group: &str) -> Result<ClockPin, Fail> {
    Ok(ClockPin {
        name: Name::from_text(alloc, name)?,
        group: Name::from_text(alloc, group)?,
        settle: 1,
    })
}

fn two_groups(alloc: Global) -> Result<Domains, Fail> {
    let mut clocks = List::new(alloc);
    clocks.push(pin(alloc, "ca", "A")?)?;
    clocks.push(pin(alloc, "cb", "B")?)?;
    let mut groups = List::new(alloc);
    groups.push(Name::from_text(alloc, "A")?)?;
    groups.push(Name::from_text(alloc, "B")?)?;
    let mut clock_by_sig = List::new(alloc);
    for clock in [None, None, Some(0), Some(1)] {
        clock_by_sig.push(clock)?;
    }
    let mut group_by_clock = List::new(alloc);
    group_by_clock.push(0)?;
    group_by_clock.push(1)?;
    Ok(Domains {
        clocks,
        groups,
        clock_by_sig,
        group_by_clock,
        statics: List::new(alloc),
    })
}

#[test]
fn doublings_are_walked_once(rt: HostRuntime) -> Result<(), Fail> {
    let alloc = rt.alloc();
    let net = doubled(alloc)?;
    let domains = two_groups(alloc)?;
    let found = crossings::find(alloc, &net, &domains)?;
    let a = Bit { sig: 2, at: 0 };
    match found.as_slice() {
        [crossing] => {
            assert_eq!(&rt; crossing.from, a);
            assert_eq!(&rt; crossing.to, Bit { sig: 3, at: 0 });
            let path = crossings::path(alloc, &net, &domains, crossing)?;
            assert_eq!(&rt; path.len(), 65);
        }
        other => assert_eq!(&rt; other.len(), 1),
    }
    let cube = fixed(
        alloc,
        &[Fixed {
            bit: a,
            value: true,
        }],
    )?;
    let table = Table::open(alloc, &net, &cube)?;
    let Some(last) = net.regs.as_slice().last() else {
        return Ok(());
    };
    let masks = table.masks(last.next);
    assert_eq!(&rt; (masks.known, masks.value), (1, 0));
    Ok(())
}

#[test]
fn equal_cells_are_one(rt: HostRuntime) -> Result<(), Fail> {
    let alloc = rt.alloc();
    let mut graph = Graph::new(alloc, signals(alloc)?)?;
    let a = graph.add(Cell::Var { sig: 2 })?;
    let first = graph.add(Cell::Not { a })?;
    let second = graph.add(Cell::Not { a })?;
    assert_eq!(&rt; first, second);
    let five = graph.add(Cell::Const { width: 4, value: 5 })?;
    let one = graph.add(Cell::Const { width: 1, value: 1 })?;
    let zero = graph.add(Cell::Const { width: 1, value: 0 })?;
    let choice = graph.add(Cell::Mux {
        cond: a,
        yes: one,
        other: zero,
    })?;
    let net = Net {
        graph,
        regs: List::new(alloc),
        outputs: List::new(alloc),
    };
    let free = fixed(alloc, &[])?;
    let masks = Table::open(alloc, &net, &free)?.masks(five);
    assert_eq!(&rt; (masks.known, masks.value), (15, 5));
    assert_eq!(&rt;
        known(
            alloc,
            &net,
            Node {
                cell: choice,
                at: 0
            },
            &free
        )?,
        None
    );
    Ok(())
}

#[test]
fn calls_are_counted(rt: HostRuntime) -> Result<(), Fail> {
    let alloc = rt.alloc();
    let mut graph = Graph::new(alloc, List::new(alloc))?;
    for value in 0..u64::from(MAX_CELLS) {
        graph.add(Cell::Const {
            width: 10,
            value: value % 1_024,
        })?;
    }
    match graph.add(Cell::Const { width: 1, value: 0 }) {
        Err(Stop::Refused(fault)) => assert_eq!(&rt; fault.number, 602),
        Err(Stop::Memory) => assert_eq!(&rt; "want of memory", ""),
        Ok(CellId(place)) => assert_eq!(&rt; place, u32::MAX),
    }
    Ok(())
}

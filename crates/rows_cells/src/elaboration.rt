//! Small flat designs, made by hand, and their cells.
use cdc_base::{List, Name, NoMemory, Place, SigKind, Signal, Stop};
use cell_graph::{Cell, CellId, Net, Values};
use elaborate::elaborate;
use flat_form::{
    FCaseItem, FExpr, FStmt, FTarget, FUnaryOp, Flat, FlatAssign, FlatClocked, FlatComb,
};
use std::alloc::Global;
use std::test::Fail;
use verilog_ast::BinaryOp;

fn add_signal(
    alloc: Global,
    flat: &mut Flat,
    name: &str,
    width: u8,
    kind: SigKind,
) -> Result<(), NoMemory> {
    let line = u32::try_from(flat.signals.len()).unwrap_or(0);
    flat.signals.push(Signal {
        name: Name::from_text(alloc, name)?,
        place: Place { line, column: 1 },
        width,
        ranged: width > 1,
        left: u32::from(width.saturating_sub(1)),
        right: 0,
        kind,
        known: 0,
        start: 0,
    })
}

/// A design with these signals, numbered in this order.
fn design(alloc: Global, signals: &[(&str, u8, SigKind)]) -> Result<Flat, NoMemory> {
    let mut flat = Flat {
        signals: List::new(alloc),
        assigns: List::new(alloc),
        combs: List::new(alloc),
        clocked: List::new(alloc),
        outputs: List::new(alloc),
    };
    for (name, width, kind) in signals {
        add_signal(alloc, &mut flat, *name, *width, *kind)?;
    }
    Ok(flat)
}

fn boxed(alloc: Global, e: FExpr) -> Result<Box<FExpr>, NoMemory> {
    match Box::new(alloc, e) {
        Ok(e) => Ok(e),
        Err(_) => Err(NoMemory),
    }
}

fn read(sig: u32, width: u8) -> FExpr {
    FExpr::Read { sig, at: 0, width }
}

fn bit(sig: u32, at: u8) -> FExpr {
    FExpr::Read { sig, at, width: 1 }
}

fn number(width: u8, value: u64) -> FExpr {
    FExpr::Number { value, width }
}

fn unary(alloc: Global, op: FUnaryOp, a: FExpr, width: u8) -> Result<FExpr, NoMemory> {
    let a = boxed(alloc, a)?;
    Ok(FExpr::Unary { op, a, width })
}

fn binary(alloc: Global, op: BinaryOp, a: FExpr, b: FExpr, width: u8) -> Result<FExpr, NoMemory> {
    let a = boxed(alloc, a)?;
    let b = boxed(alloc, b)?;
    Ok(FExpr::Binary { op, a, b, width })
}

fn assign(flat: &mut Flat, target: FTarget, value: FExpr) -> Result<(), NoMemory> {
    flat.assigns.push(FlatAssign { target, value })
}

fn set(sig: u32, blocking: bool, value: FExpr) -> FStmt {
    FStmt::Set {
        blocking,
        target: FTarget::Whole { sig },
        value,
    }
}

fn block(alloc: Global, first: FStmt, second: FStmt) -> Result<FStmt, NoMemory> {
    let mut body = List::new(alloc);
    body.push(first)?;
    body.push(second)?;
    Ok(FStmt::Block(body))
}

/// The refusal's number and name; 0 where the design is accepted.
fn refusal(alloc: Global, flat: &Flat) -> Result<(u16, Name), NoMemory> {
    match elaborate(alloc, flat) {
        Ok(_) => Ok((0, Name::from_text(alloc, "")?)),
        Err(Stop::Refused(fault)) => Ok((fault.number, fault.name.copy(alloc)?)),
        Err(Stop::Memory) => Err(NoMemory),
    }
}

fn value(alloc: Global, net: &Net, cell: CellId, words: &[u64]) -> Result<u64, NoMemory> {
    let mut values = Values::open(alloc, &net.graph)?;
    values.fill(&net.graph, words);
    Ok(values.value(cell))
}

fn first_output(net: &Net) -> CellId {
    net.outputs.as_slice().first().copied().unwrap_or(CellId(0))
}

fn next_of(net: &Net, place: usize) -> CellId {
    match net.regs.as_slice().get(place) {
        Some(register) => register.next,
        None => CellId(0),
    }
}

#[test]
fn later_assignment_wins(rt: HostRuntime) -> Result<(), Fail> {
    let alloc = rt.alloc();
    let mut flat = design(
        alloc,
        &[
            ("ca", 1, SigKind::Input),
            ("d", 1, SigKind::Input),
            ("r", 1, SigKind::Register),
        ],
    )?;
    let inverted = unary(alloc, FUnaryOp::Not, read(1, 1), 1)?;
    let body = block(alloc, set(2, false, read(1, 1)), set(2, false, inverted))?;
    flat.clocked.push(FlatClocked { clock: 0, body })?;
    let net = elaborate(alloc, &flat)?;
    assert_eq!(rt; net.regs.len(), 1);
    let next = next_of(&net, 0);
    assert_eq!(rt; value(alloc, &net, next, &[0, 0, 0])?, 1);
    assert_eq!(rt; value(alloc, &net, next, &[0, 1, 0])?, 0);
    Ok(())
}

/// Assigns one bit of a signal.
fn set_bit(sig: u32, at: u8, value: FExpr) -> FStmt {
    FStmt::Set {
        blocking: false,
        target: FTarget::Part { sig, at, width: 1 },
        value,
    }
}

/// A register of three bits that two processes assign; its highest bit stays.
#[test]
fn processes_share_a_register(rt: HostRuntime) -> Result<(), Fail> {
    let alloc = rt.alloc();
    let mut flat = design(
        alloc,
        &[
            ("ca", 1, SigKind::Input),
            ("d", 1, SigKind::Input),
            ("r", 3, SigKind::Register),
        ],
    )?;
    let body = set_bit(2, 1, bit(2, 0));
    flat.clocked.push(FlatClocked { clock: 0, body })?;
    let body = set_bit(2, 0, read(1, 1));
    flat.clocked.push(FlatClocked { clock: 0, body })?;
    let net = elaborate(alloc, &flat)?;
    assert_eq!(rt; net.regs.len(), 1);
    let next = next_of(&net, 0);
    for (d, r, wanted) in [
        (1, 0b010, 0b001),
        (0, 0b001, 0b010),
        (1, 0b111, 0b111),
        (0, 0b100, 0b100),
    ] {
        assert_eq!(rt; value(alloc, &net, next, &[0, d, r])?, wanted);
    }
    Ok(())
}

#[test]
fn operators_have_their_values(rt: HostRuntime) -> Result<(), Fail> {
    let alloc = rt.alloc();
    let table = [
        (BinaryOp::Add, 4, 9, 12, 21),
        (BinaryOp::Sub, 4, 9, 12, 253),
        (BinaryOp::And, 4, 9, 12, 8),
        (BinaryOp::Or, 4, 9, 12, 13),
        (BinaryOp::Xor, 4, 9, 12, 5),
        (BinaryOp::Xnor, 4, 9, 12, 250),
        (BinaryOp::Shl, 4, 12, 2, 48),
        (BinaryOp::Shr, 4, 12, 2, 3),
        (BinaryOp::Lt, 1, 9, 12, 1),
        (BinaryOp::Le, 1, 9, 9, 1),
        (BinaryOp::Gt, 1, 9, 9, 0),
        (BinaryOp::Ge, 1, 9, 9, 1),
        (BinaryOp::Eq, 1, 9, 12, 0),
        (BinaryOp::Ne, 1, 9, 12, 1),
        (BinaryOp::LogicAnd, 1, 9, 12, 1),
        (BinaryOp::LogicOr, 1, 0, 0, 0),
    ];
    for (op, width, a, b, want) in table {
        let mut flat = design(
            alloc,
            &[
                ("a", 4, SigKind::Input),
                ("b", 4, SigKind::Input),
                ("o", 8, SigKind::Wire),
            ],
        )?;
        let sum = binary(alloc, op, read(0, 4), read(1, 4), width)?;
        assign(&mut flat, FTarget::Whole { sig: 2 }, sum)?;
        flat.outputs.push(2)?;
        let net = elaborate(alloc, &flat)?;
        assert_eq!(rt;
            value(alloc, &net, first_output(&net), &[a, b, 0])?,
            want,
            "{op:?}"
        );
    }
    Ok(())
}

#[test]
fn drivers_are_joined_from_the_highest(rt: HostRuntime) -> Result<(), Fail> {
    let alloc = rt.alloc();
    let mut flat = design(
        alloc,
        &[
            ("d", 1, SigKind::Input),
            ("e", 1, SigKind::Input),
            ("w", 4, SigKind::Wire),
        ],
    )?;
    for (at, sig) in [(2, 1), (1, 0)] {
        let target = FTarget::Part {
            sig: 2,
            at,
            width: 1,
        };
        assign(&mut flat, target, read(sig, 1))?;
    }
    flat.outputs.push(2)?;
    let net = elaborate(alloc, &flat)?;
    let graph = &net.graph;
    // {1'b0, e, d, 1'b0}
    let mut rest = first_output(&net);
    for want in [
        Cell::Const { width: 1, value: 0 },
        Cell::Var { sig: 1 },
        Cell::Var { sig: 0 },
    ] {
        match graph.cell(rest) {
            Cell::Concat { high, low } => {
                assert_eq!(rt; graph.cell(high), want);
                rest = low;
            }
            other => assert_eq!(rt; other, want),
        }
    }
    assert_eq!(rt; graph.cell(rest), Cell::Const { width: 1, value: 0 });
    Ok(())
}

#[test]
fn a_full_case_repeats_its_last_body(rt: HostRuntime) -> Result<(), Fail> {
    let alloc = rt.alloc();
    let mut flat = design(
        alloc,
        &[
            ("cb", 1, SigKind::Input),
            ("s", 1, SigKind::Input),
            ("a", 1, SigKind::Input),
            ("x", 1, SigKind::Register),
        ],
    )?;
    let mut items = List::new(alloc);
    for (label, sig) in [(0, 1), (1, 2)] {
        let mut labels = List::new(alloc);
        labels.push(number(1, label))?;
        items.push(FCaseItem {
            labels,
            body: set(3, false, read(sig, 1)),
        })?;
    }
    let body = FStmt::Case {
        subject: read(1, 1),
        items,
        default: None,
    };
    flat.clocked.push(FlatClocked { clock: 0, body })?;
    let net = elaborate(alloc, &flat)?;
    let graph = &net.graph;
    // Mux(s == 0, s, Mux(s == 1, a, a))
    match graph.cell(next_of(&net, 0)) {
        Cell::Mux { yes, other, .. } => {
            assert_eq!(rt; graph.cell(yes), Cell::Var { sig: 1 });
            match graph.cell(other) {
                Cell::Mux { yes, other, .. } => {
                    assert_eq!(rt; graph.cell(yes), Cell::Var { sig: 2 });
                    assert_eq!(rt; other, yes);
                }
                cell => assert_eq!(rt; cell, Cell::Var { sig: 2 }),
            }
        }
        cell => assert_eq!(rt; cell, Cell::Var { sig: 1 }),
    }
    Ok(())
}

#[test]
fn loops_name_their_first_signal(rt: HostRuntime) -> Result<(), Fail> {
    let alloc = rt.alloc();
    let mut flat = design(
        alloc,
        &[
            ("a", 1, SigKind::Wire),
            ("b", 1, SigKind::Wire),
            ("c", 1, SigKind::Wire),
        ],
    )?;
    // `a` reads the loop of `b` and `c`, and is not on it.
    for (target, source) in [(0, 1), (1, 2), (2, 1)] {
        let value = unary(alloc, FUnaryOp::Not, read(source, 1), 1)?;
        assign(&mut flat, FTarget::Whole { sig: target }, value)?;
    }
    let (number, name) = refusal(alloc, &flat)?;
    assert_eq!(rt; number, 312);
    assert_eq!(rt; name.as_str(), "b");
    Ok(())
}

/// `{w[1], w[0]} = {w[0], d}`, in one assignment or in two.
fn shifted(alloc: Global, at_once: bool) -> Result<Flat, NoMemory> {
    let mut flat = design(alloc, &[("d", 1, SigKind::Input), ("w", 2, SigKind::Wire)])?;
    let mut targets = List::new(alloc);
    let mut values = List::new(alloc);
    for (at, value) in [(1, bit(1, 0)), (0, bit(0, 0))] {
        let target = FTarget::Part {
            sig: 1,
            at,
            width: 1,
        };
        if at_once {
            targets.push(target)?;
            values.push(value)?;
        } else {
            assign(&mut flat, target, value)?;
        }
    }
    if at_once {
        let value = FExpr::Join {
            parts: values,
            width: 2,
        };
        assign(&mut flat, FTarget::Join(targets), value)?;
    }
    Ok(flat)
}

#[test]
fn one_assignment_is_one_segment(rt: HostRuntime) -> Result<(), Fail> {
    let alloc = rt.alloc();
    for (at_once, want) in [(true, 312), (false, 0)] {
        let flat = shifted(alloc, at_once)?;
        let (number, _name) = refusal(alloc, &flat)?;
        assert_eq!(rt; number, want, "{at_once}");
    }
    Ok(())
}

#[test]
fn overwritten_assignments_leave_no_loop(rt: HostRuntime) -> Result<(), Fail> {
    let alloc = rt.alloc();
    let mut flat = design(
        alloc,
        &[
            ("d", 1, SigKind::Input),
            ("r", 1, SigKind::Wire),
            ("s", 1, SigKind::Wire),
        ],
    )?;
    let body = block(alloc, set(1, true, read(2, 1)), set(1, true, read(0, 1)))?;
    flat.combs.push(FlatComb { body })?;
    flat.combs.push(FlatComb {
        body: set(2, true, read(1, 1)),
    })?;
    flat.outputs.push(2)?;
    let net = elaborate(alloc, &flat)?;
    assert_eq!(rt; net.graph.cell(first_output(&net)), Cell::Var { sig: 0 });
    Ok(())
}

/// Wires from number 1 on, each the `^` of the one before with itself. The last tree has 2 to (levels + 1) cells, less
/// one.
fn doubling(alloc: Global, levels: u32) -> Result<Flat, NoMemory> {
    let mut flat = design(alloc, &[("d", 1, SigKind::Input)])?;
    for level in 0..levels {
        add_signal(alloc, &mut flat, "w", 1, SigKind::Wire)?;
        let value = binary(alloc, BinaryOp::Xor, read(level, 1), read(level, 1), 1)?;
        let sig = level.saturating_add(1);
        assign(&mut flat, FTarget::Whole { sig }, value)?;
    }
    flat.outputs.push(levels)?;
    Ok(flat)
}

#[test]
fn cells_are_counted_unshared(rt: HostRuntime) -> Result<(), Fail> {
    let alloc = rt.alloc();
    for (levels, inputs, want) in [
        (23, 0, 0),
        (23, 1, 0),
        (23, 2, 602),
        (24, 0, 602),
        (30, 0, 602),
    ] {
        let mut flat = doubling(alloc, levels)?;
        for _ in 0..inputs {
            flat.outputs.push(0)?;
        }
        let (number, _name) = refusal(alloc, &flat)?;
        assert_eq!(rt; number, want, "{levels} {inputs}");
    }
    Ok(())
}

#[test]
fn long_chains_of_wires_are_walked_once(rt: HostRuntime) -> Result<(), Fail> {
    let alloc = rt.alloc();
    let mut flat = design(alloc, &[("d", 1, SigKind::Input)])?;
    for level in 0..20_000u32 {
        add_signal(alloc, &mut flat, "w", 1, SigKind::Wire)?;
        let sig = level.saturating_add(1);
        assign(&mut flat, FTarget::Whole { sig }, read(level, 1))?;
    }
    flat.outputs.push(20_000)?;
    let net = elaborate(alloc, &flat)?;
    assert_eq!(rt; net.graph.cell(first_output(&net)), Cell::Var { sig: 0 });
    Ok(())
}

#[test]
fn state_bits_have_a_limit(rt: HostRuntime) -> Result<(), Fail> {
    let alloc = rt.alloc();
    let mut flat = design(alloc, &[])?;
    for _ in 0..65_536u32 {
        add_signal(alloc, &mut flat, "i", 64, SigKind::Input)?;
    }
    let (number, _name) = refusal(alloc, &flat)?;
    assert_eq!(rt; number, 0);
    add_signal(alloc, &mut flat, "i", 1, SigKind::Input)?;
    let (number, _name) = refusal(alloc, &flat)?;
    assert_eq!(rt; number, 605);
    Ok(())
}

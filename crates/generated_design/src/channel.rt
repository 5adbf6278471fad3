//! The channels of the generated design.
ghost use Rattle.std.specs.Prelude.{◌≡◌, ◌<◌, ◌++◌, ◌+◌, ◌%◌, map, codes, IfOk};
ghost use Rattle.verilog_reading.specs.SourceTree.{item_of, port_of};
ghost use Rattle.verilog_reading.specs.StmtTree.{stmt_tree_of};
ghost use Rattle.generated_design.specs.Pieces.{bit_item};
ghost use Rattle.generated_design.specs.Channels.{chain, shifts, declarations, sending, send_step, sender, acknowledge_step, load_step, receiver, channel_of, generated_ports};
ghost use Rattle.generated_design.specs.Channels.{channels as channels_of};

use crate::make::{
    binary, bit_register, boxed, byte_range, byte_register, flop, name, port, process, takes,
};
use cdc_base::{List, Name, NoMemory};
use std::alloc::Global;
use verilog_ast::{BinaryOp, Expr, Item, Port, Stmt, UnaryOp};
use verilog_stmts::make::make_when;

/// The declarations of a chain of `flops` flops.
#[tactic(auto, using(crate::proofs::Steps::chain_more))]
fn declare_chain(
    alloc: Global,
    items: &mut List<Item>,
    letter: &str,
    channel: u32,
    flops: u32,
) -> Result<(), NoMemory>
    requires { flops < 10 }
    ensures { IfOk result (λ _. map item_of items.new ≡ map item_of items.old ++ map bit_item (chain letter.now channel flops)) }
{
    for place in 0..flops {
        items.push(bit_register(flop(alloc, letter, channel, place + 1)?))?;
    }
    Ok(())
}

/// The declarations of a channel with chains of `flops` flops.
fn declare_channel(
    alloc: Global,
    items: &mut List<Item>,
    channel: u32,
    flops: u32,
) -> Result<(), NoMemory>
    requires { flops < 10 }
    ensures { IfOk result (λ _. map item_of items.new ≡ map item_of items.old ++ declarations channel flops) }
{
    items.push(bit_register(name(alloc, "r", channel)?))?;
    declare_chain(alloc, items, "s", channel, flops)?;
    items.push(bit_register(name(alloc, "t", channel)?))?;
    declare_chain(alloc, items, "k", channel, flops)?;
    items.push(byte_register(name(alloc, "a", channel)?))?;
    items.push(byte_register(name(alloc, "x", channel)?))?;
    Ok(())
}

/// The flops of a chain, each of which copies the one before; the first copies `source`.
#[tactic(auto, using(crate::proofs::Steps::shifts_more, crate::proofs::Steps::stage_more))]
fn shifts(
    alloc: Global,
    letter: &str,
    channel: u32,
    flops: u32,
    source: Name,
) -> Result<List<Stmt>, NoMemory>
    requires { flops < 10 }
    ensures { IfOk result (λ steps. map stmt_tree_of steps ≡ shifts letter.now channel source flops) }
{
    let mut steps = List::new(alloc);
    let mut before = source;
    for place in 0..flops {
        let next = flop(alloc, letter, channel, place + 1)?;
        let copied = next.copy(alloc)?;
        steps.push(takes(next, Expr::Ident(before)))?;
        before = copied;
    }
    Ok(steps)
}

/// The request toggles, and the data is taken.
fn sending(alloc: Global, channel: u32) -> Result<Stmt, NoMemory>
    ensures { IfOk result (λ made. stmt_tree_of made ≡ sending channel) }
{
    let mut load = List::new(alloc);
    let toggled = Expr::Unary {
        op: UnaryOp::Not,
        a: boxed(alloc, Expr::Ident(name(alloc, "r", channel)?))?,
    };
    load.push(takes(name(alloc, "r", channel)?, toggled))?;
    let data = Expr::Ident(Name::from_text(alloc, "d")?);
    load.push(takes(name(alloc, "a", channel)?, data))?;
    Ok(Stmt::Block(load))
}

/// Where the acknowledgement that came equals the request, `send` sends.
fn send_step(alloc: Global, channel: u32, flops: u32) -> Result<Stmt, NoMemory>
    ensures { IfOk result (λ made. stmt_tree_of made ≡ send_step channel flops) }
{
    let request = Expr::Ident(name(alloc, "r", channel)?);
    let back = Expr::Ident(flop(alloc, "k", channel, flops)?);
    let idle = binary(alloc, BinaryOp::Eq, request, back)?;
    let send = Expr::Ident(Name::from_text(alloc, "send")?);
    let sends = binary(alloc, BinaryOp::LogicAnd, send, idle)?;
    make_when(alloc, sends, sending(alloc, channel)?)
}

/// The sending side: the acknowledgement comes through its chain, and where it equals the request, `send` toggles the
/// request and takes the data.
fn sender(alloc: Global, channel: u32, flops: u32) -> Result<Item, NoMemory>
    requires { flops < 10 }
    ensures { IfOk result (λ item. item_of item ≡ sender channel flops) }
{
    let source = name(alloc, "t", channel)?;
    let mut steps = shifts(alloc, "k", channel, flops, source)?;
    steps.push(send_step(alloc, channel, flops)?)?;
    process(alloc, "ca", steps)
}

/// The request that came is acknowledged.
fn acknowledge_step(alloc: Global, channel: u32, flops: u32) -> Result<Stmt, NoMemory>
    ensures { IfOk result (λ made. stmt_tree_of made ≡ acknowledge_step channel flops) }
{
    let arrived = Expr::Ident(flop(alloc, "s", channel, flops)?);
    Ok(takes(name(alloc, "t", channel)?, arrived))
}

/// Where the request that came differs from the acknowledgement, the data is taken.
fn load_step(alloc: Global, channel: u32, flops: u32) -> Result<Stmt, NoMemory>
    ensures { IfOk result (λ made. stmt_tree_of made ≡ load_step channel flops) }
{
    let arrived = Expr::Ident(flop(alloc, "s", channel, flops)?);
    let acknowledged = Expr::Ident(name(alloc, "t", channel)?);
    let news = binary(alloc, BinaryOp::Ne, arrived, acknowledged)?;
    let data = Expr::Ident(name(alloc, "a", channel)?);
    let load = takes(name(alloc, "x", channel)?, data);
    make_when(alloc, news, load)
}

/// The receiving side: the request comes through its chain and is acknowledged, and where it differs from the
/// acknowledgement, the data is taken.
fn receiver(alloc: Global, channel: u32, flops: u32) -> Result<Item, NoMemory>
    requires { flops < 10 }
    ensures { IfOk result (λ item. item_of item ≡ receiver channel flops) }
{
    let source = name(alloc, "r", channel)?;
    let mut steps = shifts(alloc, "s", channel, flops, source)?;
    steps.push(acknowledge_step(alloc, channel, flops)?)?;
    steps.push(load_step(alloc, channel, flops)?)?;
    process(alloc, "cb", steps)
}

/// One channel, with chains of `flops` flops.
fn add_channel(
    alloc: Global,
    items: &mut List<Item>,
    channel: u32,
    flops: u32,
) -> Result<(), NoMemory>
    requires { flops < 10 }
    ensures { IfOk result (λ _. map item_of items.new ≡ map item_of items.old ++ channel_of channel flops) }
{
    declare_channel(alloc, items, channel, flops)?;
    items.push(sender(alloc, channel, flops)?)?;
    items.push(receiver(alloc, channel, flops)?)?;
    Ok(())
}

/// The items of so many channels.
#[tactic(auto, using(crate::proofs::Steps::channels_more))]
pub fn items(alloc: Global, channels: u32) -> Result<List<Item>, NoMemory>
    ensures { IfOk result (λ made. map item_of made ≡ channels_of channels) }
{
    let mut items = List::new(alloc);
    for channel in 0..channels {
        add_channel(alloc, &mut items, channel, 2 + channel % 3)?;
    }
    Ok(items)
}

/// The ports `input ca, cb, send, input [7:0] d`.
pub fn ports(alloc: Global) -> Result<List<Port>, NoMemory>
    ensures { IfOk result (λ ports. map port_of ports ≡ generated_ports) }
{
    let mut ports = List::new(alloc);
    ports.push(port(alloc, "ca", None)?)?;
    ports.push(port(alloc, "cb", None)?)?;
    ports.push(port(alloc, "send", None)?)?;
    ports.push(port(alloc, "d", Some(byte_range()))?)?;
    Ok(ports)
}

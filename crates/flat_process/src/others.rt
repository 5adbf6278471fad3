//! Resets that a process in reset form reads beside its own.
ghost use Rattle.std.specs.Prelude.{◌≡◌, ◌==◌, map, IfOk};
ghost use Rattle.std.specs.List.{list_any};
ghost use Rattle.verilog_reading.specs.StmtTree.{stmt_tree_of};
ghost use Rattle.flat_unfolding.specs.Names as n;
ghost use Rattle.flat_unfolding.specs.Mentions.{read_names};
ghost use Rattle.flat_unfolding.specs.Resets.{reads_other as reads_other_of};
ghost use Rattle.flat_names.specs.Looks.{Shows};
ghost use Rattle.flat_process.specs.Resets.{is_other};

use crate::reset::is_reset;
use cdc_base::{Name, NoMemory};
use flat_names::scope::{Look, Meaning};
use process_names::mentions::add_read_names;
use verilog_ast::Stmt;

/// Whether a statement names a reset that isn't one of these signals.
pub fn reads_other(look: &Look, stmt: &Stmt, signals: &[u32]) -> Result<bool, NoMemory>
    ensures { (l : n.Look) → Shows look.now l → IfOk result (λ b. b ≡ reads_other_of l signals.now (read_names (stmt_tree_of stmt.now))) }
{
    let mut names = Vec::new(look.alloc);
    add_read_names(stmt, &mut names)?;
    name_other(look, signals, names.as_slice())
}

fn name_other(look: &Look, signals: &[u32], names: &[&str]) -> Result<bool, NoMemory>
    ensures { (l : n.Look) → Shows look.now l → IfOk result (λ b. b ≡ list_any (λ x. is_other l signals.now (n.meaning l x)) (map (λ n. n.now) names.now)) }
{
    for text in names {
        if names_other(look, signals, text)? {
            return Ok(true);
        }
    }
    Ok(false)
}

fn names_other(look: &Look, signals: &[u32], text: &str) -> Result<bool, NoMemory>
    ensures { (l : n.Look) → Shows look.now l → IfOk result (λ b. b ≡ is_other l signals.now (n.meaning l text.now)) }
{
    let name = Name::from_text(look.alloc, text)?;
    Ok(stands_for_other(look, signals, &name))
}

/// Whether the name is that of a reset that isn't one of these signals.
fn stands_for_other(look: &Look, signals: &[u32], name: &Name) -> bool
    ensures { (l : n.Look) → Shows look.now l → result ≡ is_other l signals.now (n.meaning l name.now) }
{
    match look.meaning(name) {
        Some(Meaning::Signal(sig)) => is_reset(look, sig) && !has(signals, sig),
        _ => false,
    }
}

fn has(signals: &[u32], sig: u32) -> bool
    ensures { result ≡ list_any (λ t. t == sig) signals.now }
{
    signals.iter().any(|one| *one == sig)
}

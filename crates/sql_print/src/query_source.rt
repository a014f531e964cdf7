//! Writes what stands behind FROM.
#![tactic(auto, using(crate::proofs::Writing::wrote_one, crate::proofs::Writing::wrote_none, crate::proofs::Writing::wrote_then, crate::proofs::Writing::wrote_more, crate::proofs::Writing::then_if, crate::proofs::Writing::more_if, crate::proofs::Writing::wrote_all, crate::proofs::WritingParts::chains_next, crate::proofs::WritingParts::joins_next))]

ghost use Rattle.expr_writer.specs.ExprPrinting.{Writes};
ghost use Rattle.med_syntax.specs.Prelude.{spelling, expr_tree, left_join, cross_join, entry_tree, join_tree, chain_tree};
ghost use Rattle.med_syntax.specs.Terminal as t;
ghost use Rattle.sql_print.specs.QueryPrinting.{others_written, listed_written};
ghost use Rattle.sql_print.specs.QueryPrinting.{entry_written, on_written, join_written, joins_written, chain_written};
ghost use Rattle.std.specs.Prelude.{◌++◌, ◌∷◌, [], map, codes};

use crate::query_words::{Keyword, write_alias, write_comma, write_keyword};
use expr_writer::{write, write_name};
use med_syntax::{Chain, Entry, Expr, Join};
use std::alloc::{AllocError, Global};

/// Writes the entry: its name, and AS and its alias where it has one.
pub fn write_entry(entry: &Entry, out: &mut String) -> Result<(), AllocError>
    ensures { Writes result out.old out.new (entry_written (entry_tree entry.now)) }
{
    write_name(&entry.table, out)?;
    write_alias(&entry.alias, out)
}

/// Writes ON and the condition.
fn write_on(alloc: Global, on: &Expr, out: &mut String) -> Result<(), AllocError>
    ensures { Writes result out.old out.new (t.Reserved (codes "on") ∷ spelling (expr_tree on.now)) }
{
    write_keyword(Keyword::On, out)?;
    write(alloc, on, out)
}

/// Writes JOIN, the entry, and ON with its condition.
fn write_entry_on(
    alloc: Global,
    entry: &Entry,
    on: &Expr,
    out: &mut String,
) -> Result<(), AllocError>
    ensures { Writes result out.old out.new (t.Reserved (codes "join") ∷ on_written (entry_tree entry.now) (expr_tree on.now)) }
{
    write_keyword(Keyword::Join, out)?;
    write_entry(entry, out)?;
    write_on(alloc, on, out)
}

/// Writes LEFT JOIN, the entry, and ON with its condition.
fn write_left_join(
    alloc: Global,
    entry: &Entry,
    on: &Expr,
    out: &mut String,
) -> Result<(), AllocError>
    ensures { Writes result out.old out.new (join_written (left_join (entry_tree entry.now) (expr_tree on.now))) }
{
    write_keyword(Keyword::Left, out)?;
    write_entry_on(alloc, entry, on, out)
}

/// Writes CROSS JOIN and the entry.
fn write_cross_join(entry: &Entry, out: &mut String) -> Result<(), AllocError>
    ensures { Writes result out.old out.new (join_written (cross_join (entry_tree entry.now))) }
{
    write_keyword(Keyword::Cross, out)?;
    write_keyword(Keyword::Join, out)?;
    write_entry(entry, out)
}

/// Writes the join.
fn write_join(alloc: Global, join: &Join, out: &mut String) -> Result<(), AllocError>
    ensures { Writes result out.old out.new (join_written (join_tree join.now)) }
{
    match join {
        Join::Inner(entry, on) => write_entry_on(alloc, entry, on, out),
        Join::Left(entry, on) => write_left_join(alloc, entry, on, out),
        Join::Cross(entry) => write_cross_join(entry, out),
    }
}

/// Writes each of the joins.
fn write_joins(alloc: Global, joins: &[Join], out: &mut String) -> Result<(), AllocError>
    ensures { Writes result out.old out.new (joins_written (map join_tree joins.now)) }
{
    let mut left = joins;
    while let Some((join, rest)) = left.split_first() {
        write_join(alloc, join, out)?;
        left = rest;
    }
    Ok(())
}

/// Writes the entry with its joins.
fn write_chain(alloc: Global, chain: &Chain, out: &mut String) -> Result<(), AllocError>
    ensures { Writes result out.old out.new (chain_written (chain_tree chain.now)) }
{
    write_entry(&chain.first, out)?;
    write_joins(alloc, &chain.joins, out)
}

/// Writes each of the chains behind a comma.
fn write_other_chains(alloc: Global, chains: &[Chain], out: &mut String) -> Result<(), AllocError>
    ensures { Writes result out.old out.new (others_written chain_written (map chain_tree chains.now)) }
{
    let mut left = chains;
    while let Some((chain, rest)) = left.split_first() {
        write_comma(out)?;
        write_chain(alloc, chain, out)?;
        left = rest;
    }
    Ok(())
}

/// Writes the chain, and each of the others behind a comma.
fn write_chain_list(
    alloc: Global,
    first: &Chain,
    others: &[Chain],
    out: &mut String,
) -> Result<(), AllocError>
    ensures { Writes result out.old out.new
        (chain_written (chain_tree first.now) ++ others_written chain_written (map chain_tree others.now)) }
{
    write_chain(alloc, first, out)?;
    write_other_chains(alloc, others, out)
}

/// Writes FROM and the chains, where there are any.
pub(crate) fn write_from(
    alloc: Global,
    chains: &[Chain],
    out: &mut String,
) -> Result<(), AllocError>
    ensures { Writes result out.old out.new (listed_written (codes "from" ∷ []) chain_written (map chain_tree chains.now)) }
{
    match chains {
        [] => Ok(()),
        [first, others @ ..] => {
            write_keyword(Keyword::From, out)?;
            write_chain_list(alloc, first, others, out)
        }
    }
}

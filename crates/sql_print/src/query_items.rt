//! Writes what stands behind SELECT: DISTINCT and the items.
#![tactic(auto, using(crate::proofs::Writing::wrote_one, crate::proofs::Writing::wrote_none, crate::proofs::Writing::wrote_then, crate::proofs::Writing::wrote_more, crate::proofs::Writing::then_if, crate::proofs::Writing::more_if, crate::proofs::Writing::wrote_all, crate::proofs::WritingParts::items_next))]

ghost use Rattle.expr_writer.specs.ExprPrinting.{Writes};
ghost use Rattle.med_syntax.specs.Prelude.{spelling, expr_tree, item_tree, items_tree};
ghost use Rattle.sql_print.specs.QueryPrinting.{alias_written, item_written, others_written, list_written, quantifier_written};
ghost use Rattle.std.specs.Prelude.{◌++◌, option_map};
ghost use Rattle.std.specs.String.{string_bytes};

use crate::query_words::{Keyword, write_alias, write_comma, write_keyword};
use expr_writer::{Fixed, write, write_fixed, write_name};
use med_syntax::{Expr, Item};
use med_value::Operation;
use std::alloc::{AllocError, Global};

/// Writes the expression and its alias.
fn write_value(
    alloc: Global,
    expr: &Expr,
    alias: &Option<String>,
    out: &mut String,
) -> Result<(), AllocError>
    ensures { Writes result out.old out.new (spelling (expr_tree expr.now) ++ alias_written (option_map string_bytes alias.now)) }
{
    write(alloc, expr, out)?;
    write_alias(alias, out)
}

/// Writes the item, each of its tokens behind a space.
fn write_item(alloc: Global, item: &Item, out: &mut String) -> Result<(), AllocError>
    ensures { Writes result out.old out.new (item_written (item_tree item.now)) }
{
    match item {
        Item::All => write_fixed(Fixed::Binary(Operation::Multiply), out),
        Item::AllOf(name) => {
            write_name(name, out)?;
            write_fixed(Fixed::Dot, out)?;
            write_fixed(Fixed::Binary(Operation::Multiply), out)
        }
        Item::Expression(expr, alias) => write_value(alloc, expr, alias, out),
    }
}

/// Writes each of the items behind a comma.
fn write_other_items(alloc: Global, items: &[Item], out: &mut String) -> Result<(), AllocError>
    ensures { Writes result out.old out.new (others_written item_written (items_tree items.now)) }
{
    let mut left = items;
    while let Some((item, rest)) = left.split_first() {
        write_comma(out)?;
        write_item(alloc, item, out)?;
        left = rest;
    }
    Ok(())
}

/// Writes the item, and each of the others behind a comma.
fn write_item_list(
    alloc: Global,
    first: &Item,
    others: &[Item],
    out: &mut String,
) -> Result<(), AllocError>
    ensures { Writes result out.old out.new (item_written (item_tree first.now) ++ others_written item_written (items_tree others.now)) }
{
    write_item(alloc, first, out)?;
    write_other_items(alloc, others, out)
}

/// Writes the items with a comma between each two.
pub(crate) fn write_items(alloc: Global, items: &[Item], out: &mut String) -> Result<(), AllocError>
    ensures { Writes result out.old out.new (list_written item_written (items_tree items.now)) }
{
    match items {
        [] => Ok(()),
        [first, others @ ..] => write_item_list(alloc, first, others, out),
    }
}

/// Writes DISTINCT, where it is written.
pub(crate) fn write_quantifier(distinct: bool, out: &mut String) -> Result<(), AllocError>
    ensures { Writes result out.old out.new (quantifier_written distinct) }
{
    if distinct {
        write_keyword(Keyword::Distinct, out)
    } else {
        Ok(())
    }
}

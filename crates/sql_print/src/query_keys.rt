//! Writes GROUP BY, ORDER BY, LIMIT and OFFSET.
#![tactic(auto, using(crate::proofs::Writing::wrote_one, crate::proofs::Writing::wrote_none, crate::proofs::Writing::wrote_then, crate::proofs::Writing::wrote_more, crate::proofs::Writing::then_if, crate::proofs::Writing::more_if, crate::proofs::Writing::wrote_all, crate::proofs::WritingParts::groups_next, crate::proofs::WritingParts::keys_next))]

ghost use Rattle.expr_writer.specs.ExprPrinting.{Writes};
ghost use Rattle.med_syntax.specs.QueryView.{group_tree, key_tree, limit_tree, select_tree};
ghost use Rattle.sql_print.specs.QueryPrinting.{keyword_word, others_written};
ghost use Rattle.sql_print.specs.QueryPrinting.{group_written, flag_written, nulls_written, key_written};
ghost use Rattle.sql_print.specs.QueryPrinting.{limit_written, offset_written, listed_written, tail_written};
ghost use Rattle.std.specs.Prelude.{◌++◌, ◌∷◌, [], map, option_map, codes};

use crate::query_words::{Keyword, write_comma, write_keyword};
use expr_writer::{write, write_column, write_number};
use med_syntax::{GroupColumn, Limit, OrderKey, Select};
use std::alloc::{AllocError, Global};

/// Writes the column.
fn write_group(group: &GroupColumn, out: &mut String) -> Result<(), AllocError>
    ensures { Writes result out.old out.new (group_written (group_tree group.now)) }
{
    write_column(&group.qualifier, &group.name, out)
}

/// Writes each of the columns behind a comma.
fn write_other_groups(groups: &[GroupColumn], out: &mut String) -> Result<(), AllocError>
    ensures { Writes result out.old out.new (others_written group_written (map group_tree groups.now)) }
{
    let mut left = groups;
    while let Some((group, rest)) = left.split_first() {
        write_comma(out)?;
        write_group(group, out)?;
        left = rest;
    }
    Ok(())
}

/// Writes the group, and each of the others behind a comma.
fn write_group_list(
    first: &GroupColumn,
    others: &[GroupColumn],
    out: &mut String,
) -> Result<(), AllocError>
    ensures { Writes result out.old out.new
        (group_written (group_tree first.now) ++ others_written group_written (map group_tree others.now)) }
{
    write_group(first, out)?;
    write_other_groups(others, out)
}

/// Writes GROUP BY and the columns, where there are any.
pub(crate) fn write_groups(groups: &[GroupColumn], out: &mut String) -> Result<(), AllocError>
    ensures { Writes result out.old out.new (listed_written (codes "group" ∷ codes "by" ∷ []) group_written (map group_tree groups.now)) }
{
    match groups {
        [] => Ok(()),
        [first, others @ ..] => {
            write_keyword(Keyword::Group, out)?;
            write_keyword(Keyword::By, out)?;
            write_group_list(first, others, out)
        }
    }
}

/// Writes one of the keywords.
fn write_flag(flag: bool, one: Keyword, other: Keyword, out: &mut String) -> Result<(), AllocError>
    ensures { Writes result out.old out.new (flag_written (keyword_word one) (keyword_word other) flag) }
{
    if flag {
        write_keyword(one, out)
    } else {
        write_keyword(other, out)
    }
}

/// Writes the direction of a key, and where it puts NULL.
fn write_direction(descending: bool, nulls_first: bool, out: &mut String) -> Result<(), AllocError>
    ensures { Writes result out.old out.new (flag_written (codes "desc") (codes "asc") descending ++ nulls_written nulls_first) }
{
    write_flag(descending, Keyword::Descending, Keyword::Ascending, out)?;
    write_keyword(Keyword::Nulls, out)?;
    write_flag(nulls_first, Keyword::First, Keyword::Last, out)
}

/// Writes the key.
fn write_key(alloc: Global, key: &OrderKey, out: &mut String) -> Result<(), AllocError>
    ensures { Writes result out.old out.new (key_written (key_tree key.now)) }
{
    write(alloc, &key.key, out)?;
    write_direction(key.descending, key.nulls_first, out)
}

/// Writes each of the keys behind a comma.
fn write_other_keys(alloc: Global, keys: &[OrderKey], out: &mut String) -> Result<(), AllocError>
    ensures { Writes result out.old out.new (others_written key_written (map key_tree keys.now)) }
{
    let mut left = keys;
    while let Some((key, rest)) = left.split_first() {
        write_comma(out)?;
        write_key(alloc, key, out)?;
        left = rest;
    }
    Ok(())
}

/// Writes the key, and each of the others behind a comma.
fn write_key_list(
    alloc: Global,
    first: &OrderKey,
    others: &[OrderKey],
    out: &mut String,
) -> Result<(), AllocError>
    ensures { Writes result out.old out.new (key_written (key_tree first.now) ++ others_written key_written (map key_tree others.now)) }
{
    write_key(alloc, first, out)?;
    write_other_keys(alloc, others, out)
}

/// Writes ORDER BY and the keys, where there are any.
fn write_keys(alloc: Global, keys: &[OrderKey], out: &mut String) -> Result<(), AllocError>
    ensures { Writes result out.old out.new (listed_written (codes "order" ∷ codes "by" ∷ []) key_written (map key_tree keys.now)) }
{
    match keys {
        [] => Ok(()),
        [first, others @ ..] => {
            write_keyword(Keyword::Order, out)?;
            write_keyword(Keyword::By, out)?;
            write_key_list(alloc, first, others, out)
        }
    }
}

/// Writes LIMIT, where it is written.
fn write_limit(alloc: Global, limit: Option<Limit>, out: &mut String) -> Result<(), AllocError>
    ensures { Writes result out.old out.new (limit_written (option_map limit_tree limit)) }
{
    match limit {
        None => Ok(()),
        Some(Limit::All) => {
            write_keyword(Keyword::Limit, out)?;
            write_keyword(Keyword::All, out)
        }
        Some(Limit::Rows(rows)) => {
            write_keyword(Keyword::Limit, out)?;
            write_number(alloc, rows, out)
        }
    }
}

/// Writes OFFSET, where it is written.
fn write_offset(alloc: Global, offset: Option<u64>, out: &mut String) -> Result<(), AllocError>
    ensures { Writes result out.old out.new (offset_written offset) }
{
    match offset {
        None => Ok(()),
        Some(rows) => {
            write_keyword(Keyword::Offset, out)?;
            write_number(alloc, rows, out)
        }
    }
}

/// Writes what stands behind the cores.
pub(crate) fn write_tail(alloc: Global, select: &Select, out: &mut String) -> Result<(), AllocError>
    ensures { Writes result out.old out.new (tail_written (select_tree select.now)) }
{
    write_keys(alloc, &select.keys, out)?;
    write_limit(alloc, select.limit, out)?;
    write_offset(alloc, select.offset, out)
}

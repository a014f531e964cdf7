//! Writes statements out.
#![tactic(auto, using(crate::proofs::Writing::wrote_one, crate::proofs::Writing::wrote_none, crate::proofs::Writing::wrote_then, crate::proofs::Writing::wrote_more, crate::proofs::Writing::then_if, crate::proofs::Writing::more_if, crate::proofs::Writing::wrote_all))]

ghost use Rattle.expr_writer.specs.ExprPrinting.{Writes};
ghost use Rattle.med_syntax.specs.Prelude.{spelling, expr_tree, core_tree, select_tree, statement_tree, statement_in_range, HasStatement};
ghost use Rattle.sql_print.specs.QueryPrinting.{keyword_word, perhaps_written};
ghost use Rattle.sql_print.specs.QueryPrinting.{clauses_written, core_written, union_written, unions_written, select_written, statement_written, printed_statement};
ghost use Rattle.std.specs.Prelude.{◌≡◌, ◌∷◌, [], ℕ, List, IfOk, true, map, option_map};
ghost use Rattle.std.specs.String.{string_bytes};

use crate::query_items::{write_items, write_quantifier};
use crate::query_keys::{write_groups, write_tail};
use crate::query_laws::printed_statement;
use crate::query_source::write_from;
use crate::query_words::{Keyword, write_keyword};
use expr_writer::write;
use med_syntax::{Core, Expr, Select, Statement};
use med_value::NoMemory;
use std::alloc::{AllocError, Global};

/// Writes the keyword and the condition, where there is one.
pub fn write_condition(
    alloc: Global,
    keyword: Keyword,
    condition: &Option<Expr>,
    out: &mut String,
) -> Result<(), AllocError>
    ensures { Writes result out.old out.new (perhaps_written (keyword_word keyword ∷ []) spelling (option_map expr_tree condition.now)) }
{
    match condition {
        None => Ok(()),
        Some(condition) => {
            write_keyword(keyword, out)?;
            write(alloc, condition, out)
        }
    }
}

/// Writes what stands behind the items of a core.
fn write_clauses(alloc: Global, core: &Core, out: &mut String) -> Result<(), AllocError>
    ensures { Writes result out.old out.new (clauses_written (core_tree core.now)) }
{
    write_from(alloc, &core.from, out)?;
    write_condition(alloc, Keyword::Where, &core.condition, out)?;
    write_groups(&core.groups, out)?;
    write_condition(alloc, Keyword::Having, &core.having, out)
}

/// Writes the core, each of its tokens behind a space.
fn write_core(alloc: Global, core: &Core, out: &mut String) -> Result<(), AllocError>
    ensures { Writes result out.old out.new (core_written (core_tree core.now)) }
{
    write_keyword(Keyword::Select, out)?;
    write_quantifier(core.distinct, out)?;
    write_items(alloc, &core.items, out)?;
    write_clauses(alloc, core, out)
}

/// Writes UNION ALL and the core.
fn write_union(alloc: Global, core: &Core, out: &mut String) -> Result<(), AllocError>
    ensures { Writes result out.old out.new (union_written (core_tree core.now)) }
{
    write_keyword(Keyword::Union, out)?;
    write_keyword(Keyword::All, out)?;
    write_core(alloc, core, out)
}

/// Writes each of the cores behind a UNION ALL.
fn write_unions(alloc: Global, cores: &[Core], out: &mut String) -> Result<(), AllocError>
    ensures { Writes result out.old out.new (unions_written (map core_tree cores.now)) }
{
    let mut left = cores;
    while let Some((core, rest)) = left.split_first() {
        write_union(alloc, core, out)?;
        left = rest;
    }
    Ok(())
}

/// Writes the query, each of its tokens behind a space.
fn write_select(alloc: Global, select: &Select, out: &mut String) -> Result<(), AllocError>
    ensures { Writes result out.old out.new (select_written (select_tree select.now)) }
{
    write_core(alloc, &select.core, out)?;
    write_unions(alloc, &select.others, out)?;
    write_tail(alloc, select, out)
}

/// Writes the statement, each of its tokens behind a space.
pub fn write_statement(
    alloc: Global,
    statement: &Statement,
    out: &mut String,
) -> Result<(), AllocError>
    ensures { Writes result out.old out.new (statement_written (statement_tree statement.now)) }
{
    match statement {
        Statement::Select(select) => write_select(alloc, select, out),
    }
}

/// The statement written out: keywords in upper case, every name in double quotes, AS before each alias, and one space between tokens.
pub fn print(alloc: Global, statement: &Statement) -> Result<String, NoMemory>
    // Its tokens are those that the tree is written by.
    ensures written { IfOk result (λ s. string_bytes s ≡ printed_statement (statement_tree statement.now)) }
    // What is written of a text's statement is that statement.
    ensures again { (text : List ℕ) → HasStatement text (statement_tree statement.now)
        → statement_in_range (statement_tree statement.now) ≡ true
        → IfOk result (λ s. HasStatement (string_bytes s) (statement_tree statement.now)) }
{
    printed_statement();
    let mut out = String::new(alloc);
    write_statement(alloc, statement, &mut out)?;
    let _ = out.remove(0);
    Ok(out)
}

//! Whether a query is larger than one may be.
ghost use Rattle.std.specs.Prelude.{◌≡◌, map, nat_lt};
ghost use Rattle.std.specs.List.{list_any};
ghost use Rattle.med_value.specs.Limits.{entry_limit};
ghost use Rattle.med_query.specs.Form.{chain_form, core_form, form_of};
ghost use Rattle.sql_meaning.specs.Sizes.{entries_in, is_large_core as spec_is_large_core, is_large_form};

use med_query::{JoinChain, Select, SelectCore};
use med_value::limits::{CORE_LIMIT, ENTRY_LIMIT};

// Whether FROM has more entries than it may have.
fn is_large_from(chains: &[JoinChain]) -> bool
    ensures { result ≡ nat_lt entry_limit (entries_in (map chain_form chains.now)) }
{
    let mut room = ENTRY_LIMIT;
    for chain in chains {
        let joined = chain.joins.len();
        if joined >= room {
            return true;
        }
        room -= joined + 1;
    }
    false
}

// Whether FROM of one of the cores has.
fn some_large(cores: &[SelectCore]) -> bool
    ensures { result ≡ list_any spec_is_large_core (map core_form cores.now) }
{
    for core in cores {
        if is_large_from(core.from.as_slice()) {
            return true;
        }
    }
    false
}

/// Whether a query has more than 8 cores, or one of its cores more than 8 entries of FROM.
pub fn is_large_query(select: &Select) -> bool
    ensures { result ≡ is_large_form (form_of select.now) }
{
    select.cores.len() > CORE_LIMIT || some_large(select.cores.as_slice())
}

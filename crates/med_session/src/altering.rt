//! Statements on objects: what the catalogue asks of them, and what the boxes of sources are asked for it.
ghost use Rattle.med_syntax.specs.Prelude.{ddl_tree, Name};
ghost use Rattle.fdw_api.specs.Prelude.{CanBind, BoxState, IsIdle};
ghost use Rattle.med_catalog.specs.Prelude.{CanChange, server_named, table_named, change_of, server_of, table_of};
ghost use Rattle.med_value.specs.declared.cause.Cause.TheVariants.{OutOfMemory};
ghost use Rattle.std.specs.Prelude.{◌≡◌, ℕ, true, false, None, Some, IsSome, IfSome, IfNone, IfErr, OnOk, OnErr, slice_get, string_bytes};

use crate::adding::place_of_source;
use crate::binding::{bind_table, drop_at, unbind_table};
use crate::engine::Engine;
use fdw_api::wishes::Wrapper2;
use med_catalog::{Change, Server, SourceKind, Table};
use med_exec::slots::ledger_at;
use med_syntax::Ddl;
use med_value::Cause;
use med_world::is_leased;
use med_world::law::{boxes_are_ready, leases_bar_drops};
use std::alloc::Global;

// Whether two kinds are one.
fn is_same_kind(one: SourceKind, other: SourceKind) -> bool
    ensures same { result ≡ true → one ≡ other }
    ensures differs { result ≡ false → one ≡ other → ⊥ }
{
    match one {
        SourceKind::Csv => matches!(other, SourceKind::Csv),
        SourceKind::JsonLines => matches!(other, SourceKind::JsonLines),
        SourceKind::Sqlite => matches!(other, SourceKind::Sqlite),
        SourceKind::List => matches!(other, SourceKind::List),
    }
}

impl<W: Wrapper2> Engine<W> {
    ghost use Rattle.med_session.specs.Shows.{shown};
    ghost use Rattle.med_session.specs.Tables.{TableFails, TakesSource, ServerFails};
    ghost use Rattle.med_world.specs.Prelude.{IsFreeAt, IsAltered, NotAltered, IsSound, IsServerAt, leased, with_change, BindsTable, UnbindsTable, DropsBox};

    // The place of the source of this server.
    fn server_place(&self, server: &str) -> Option<usize>
        requires { IsSound (shown W.meaning self.now) }
        ensures found { IfSome result (λ place. IsServerAt (shown W.meaning self.now) server.now place) }
        ensures none { IfNone result (server_named (shown W.meaning self.now).catalog server.now ≡ None) }
    {
        match self.catalog.server(server) {
            Some(found) => place_of_source(&self.sources, found.source.as_str()),
            None => None,
        }
    }

    // The place of the source that a new server names, where it is of the server's kind, and no server has taken it.
    fn free_place(&self, server: &Server) -> Option<usize>
        requires { IsSound (shown W.meaning self.now) }
        ensures found { IfSome result (λ place. (name : Name) → IsFreeAt (shown W.meaning self.now) (server_of name server.now) place) }
        ensures none { IfNone result ((name : Name) (place : ℕ)
            → IsFreeAt (shown W.meaning self.now) (server_of name server.now) place → ⊥) }
    {
        let place = place_of_source(&self.sources, server.source.as_str())?;
        if !is_same_kind(self.sources[place].kind, server.kind) {
            return None;
        }
        if self.catalog.is_taken(server.source.as_str()) {
            return None;
        }
        match ledger_at(&self.slots, place) {
            Some(_) => Some(place),
            None => None,
        }
    }

    // Makes a change of the catalogue, and of nothing else.
    fn change_objects(&mut self, change: Change) -> Result<(), Cause>
        requires { CanChange (shown W.meaning self.old).catalog (change_of change) }
        ensures ok { OnOk result (shown W.meaning self.new ≡ with_change (shown W.meaning self.old) (change_of change)) }
        ensures err { IfErr result (λ c. c ≡ OutOfMemory) }
        ensures kept { OnErr result (shown W.meaning self.new ≡ shown W.meaning self.old) }
    {
        match self.catalog.apply(change) {
            Ok(()) => Ok(()),
            Err(_) => Err(Cause::OutOfMemory),
        }
    }

    // Binds a new table in the box of its server's source, and notes it in the catalogue. Where memory is refused behind the bind, the
    // table is let go again.
    fn add_table(&mut self, alloc: Global, name: String, table: Table) -> Result<(), Cause>
        requires sound { IsSound (shown W.meaning self.old) }
        requires fresh { table_named (shown W.meaning self.old).catalog (string_bytes name) ≡ None }
        requires server { IsSome (server_named (shown W.meaning self.old).catalog (string_bytes table.server)) }
        requires ready { (place : ℕ) (s : BoxState) → IsServerAt (shown W.meaning self.old) (string_bytes table.server) place
            → slice_get (shown W.meaning self.old).boxes place ≡ Some (Some s)
            → CanBind s (table_of (string_bytes name) table).remote (table_of (string_bytes name) table).columns
            (table_of (string_bytes name) table).settings }
        ensures ok { OnOk result (BindsTable (shown W.meaning self.old) (table_of (string_bytes name) table) (shown W.meaning self.new)) }
        ensures err { IfErr result (λ c. TableFails (shown W.meaning self.old) (table_of (string_bytes name) table) c
            (shown W.meaning self.new)) }
    {
        boxes_are_ready();
        let Some(place) = self.server_place(table.server.as_str()) else {
            unreachable!()
        };
        let bound = bind_table(
            &mut self.slots,
            &mut self.bound,
            alloc,
            place,
            table.remote.as_str(),
            &table.columns,
            &table.options,
        );
        match bound {
            Err(cause) => Err(cause),
            Ok(()) => match self.catalog.apply(Change::NewTable(name, table)) {
                Ok(()) => Ok(()),
                Err(_) => {
                    let last = self.bound.len() - 1;
                    unbind_table(&mut self.slots, &mut self.bound, last);
                    Err(Cause::OutOfMemory)
                }
            },
        }
    }

    // Takes a table out of the catalogue, and unbinds it in the box of its source.
    fn remove_table(&mut self, name: String) -> Result<(), Cause>
        requires sound { IsSound (shown W.meaning self.old) }
        requires there { IsSome (table_named (shown W.meaning self.old).catalog (string_bytes name)) }
        requires free { leased (shown W.meaning self.old) (string_bytes name) ≡ false }
        ensures ok { OnOk result (UnbindsTable (shown W.meaning self.old) (string_bytes name) (shown W.meaning self.new)) }
        ensures err { IfErr result (λ c. c ≡ OutOfMemory) }
        ensures kept { OnErr result (shown W.meaning self.new ≡ shown W.meaning self.old) }
    {
        boxes_are_ready();
        let Some((place, _)) = self.catalog.table_at(name.as_str()) else {
            unreachable!()
        };
        match self.catalog.apply(Change::NoTable(name)) {
            Ok(()) => {
                unbind_table(&mut self.slots, &mut self.bound, place);
                Ok(())
            }
            Err(_) => Err(Cause::OutOfMemory),
        }
    }

    // Takes a server out of the catalogue, and drops the box of its source.
    fn remove_server(&mut self, name: String) -> Result<(), Cause>
        requires sound { IsSound (shown W.meaning self.old) }
        requires there { IsSome (server_named (shown W.meaning self.old).catalog (string_bytes name)) }
        requires idle { (place : ℕ) (s : BoxState) → IsServerAt (shown W.meaning self.old) (string_bytes name) place
            → slice_get (shown W.meaning self.old).boxes place ≡ Some (Some s) → IsIdle s }
        ensures ok { OnOk result (DropsBox (shown W.meaning self.old) (string_bytes name) (shown W.meaning self.new)) }
        ensures err { IfErr result (λ c. c ≡ OutOfMemory) }
        ensures kept { OnErr result (shown W.meaning self.new ≡ shown W.meaning self.old) }
    {
        boxes_are_ready();
        let Some(place) = self.server_place(name.as_str()) else {
            unreachable!()
        };
        match self.catalog.apply(Change::NoServer(name)) {
            Ok(()) => {
                drop_at(&mut self.slots, place);
                Ok(())
            }
            Err(_) => Err(Cause::OutOfMemory),
        }
    }

    // Gives a new server its source, where it is free.
    fn add_server(&mut self, name: String, server: Server) -> Result<(), Cause>
        requires sound { IsSound (shown W.meaning self.old) }
        requires fresh { server_named (shown W.meaning self.old).catalog (string_bytes name) ≡ None }
        ensures ok { OnOk result (TakesSource (shown W.meaning self.old) (server_of (string_bytes name) server)
            (shown W.meaning self.new)) }
        ensures err { IfErr result (λ c. ServerFails (shown W.meaning self.old) (server_of (string_bytes name) server) c) }
        ensures kept { OnErr result (shown W.meaning self.new ≡ shown W.meaning self.old) }
    {
        match self.free_place(&server) {
            Some(_) => self.change_objects(Change::NewServer(name, server)),
            None => Err(Cause::UnableToConnect),
        }
    }

    /// Does a statement on objects (SQL/MED, ISO/IEC 9075-9).
    ///
    /// # Errors
    ///
    /// A cause of the least phase in which the catalogue shows one; 55006 where a table that is dropped is leased; HV00N where the source
    /// of a new server is not a free one of its kind; what the source of a new table says of its remote table; and 53200 and HV000 where
    /// memory was refused, and a source failed. Then nothing changes but what a box counts.
    pub(crate) fn alter(&mut self, alloc: Global, user: &str, ddl: &Ddl) -> Result<(), Cause>
        requires { IsSound (shown W.meaning self.old) }
        ensures ok { OnOk result (IsAltered (shown W.meaning self.old) user.now (ddl_tree ddl.now) (shown W.meaning self.new)) }
        ensures err { IfErr result (λ c. NotAltered (shown W.meaning self.old) user.now (ddl_tree ddl.now) c (shown W.meaning self.new)) }
    {
        boxes_are_ready();
        leases_bar_drops();
        match self.catalog.check(alloc, ddl, user)? {
            Change::Nothing => Ok(()),
            Change::NewServer(name, server) => self.add_server(name, server),
            Change::NewTable(name, table) => self.add_table(alloc, name, table),
            Change::NoServer(name) => self.remove_server(name),
            Change::NoTable(name) => {
                if is_leased(&self.seats, name.as_str()) {
                    return Err(Cause::InUse);
                }
                self.remove_table(name)
            }
            Change::NewWrapper(name, kind) => self.change_objects(Change::NewWrapper(name, kind)),
            Change::NewMapping(server, whose, mode) => {
                self.change_objects(Change::NewMapping(server, whose, mode))
            }
            Change::NoWrapper(name) => self.change_objects(Change::NoWrapper(name)),
            Change::NoMapping(server, whose) => self.change_objects(Change::NoMapping(
                server, whose,
            )),
        }
    }
}

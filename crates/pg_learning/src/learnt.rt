ghost use Rattle.std.specs.Prelude.{◌≡◌, IfOk, IfErr, OnOk, OnErr};
ghost use Rattle.pg_request.specs.Asked.{RefusesType};
ghost use Rattle.pg_learning.specs.Naming.{begun_names, oids_under, unknown_name};
ghost use Rattle.pg_learning.specs.Learning.{IsUnsought, Seeks, SeeksNames, SeeksOn, TakesRow, begun_with, learnt_none, unnamed_types};

use crate::naming::{ask_unnumbered, not_found, oid_under};
use crate::pushing::{ask_unknown, push_names};
use crate::rows::{column_row, type_row};
use pg_columns::PgColumn;
use pg_request::Declared;
use pg_resolve::{ColumnResolver, Resolver, TableCache, TypeCache};
use pg_wire::{DataRow, Error, Oid, Oids, Text};
use std::alloc::Global;

/// What is looked up.
pub enum Seeking {
    Nothing,
    /// Types, by their OIDs.
    Types(Resolver),
    /// The names of tables and of their columns.
    Names(ColumnResolver),
}

// By hand, so that whoever lets one go makes one call, and doesn't go through its parts.
impl Drop for Seeking {
    fn drop(self) {
        match self {
            Seeking::Nothing | Seeking::Types(_) | Seeking::Names(_) => {}
        }
    }
}

/// What a connection has learnt of types and of the names of columns, and the lookup that is under way.
pub struct Learnt {
    pub types: TypeCache,
    pub tables: TableCache,
    pub seeking: Seeking,
}

// By hand, so that whoever lets one go makes one call, and doesn't go through its parts.
impl Drop for Learnt {
    fn drop(self) {
        let Learnt {
            types: _,
            tables: _,
            seeking: _,
        } = self;
    }
}

impl Learnt {
    /// Nothing is known yet.
    pub fn new(alloc: Global) -> Self
        ensures { result ≡ learnt_none }
    {
        Learnt {
            types: TypeCache::new(alloc),
            tables: TableCache::new(alloc),
            seeking: Seeking::Nothing,
        }
    }

    /// Forgets the OIDs that names of types have. What was looked up stays known by its OID. It takes no memory.
    pub fn forget_names(&mut self)
        ensures { self.new ≡ unnamed_types self.old }
    {
        self.types.forget_names();
    }

    /// What isn't known of the types of a statement's parameters and columns is to be looked up, in place of whatever was. An `Err` is want of memory, and
    /// nothing has changed.
    pub fn begin(
        &mut self,
        alloc: Global,
        parameters: &[Oid],
        columns: &[PgColumn],
    ) -> Result<(), Error>
        ensures ok { OnOk result (self.new ≡ begun_with parameters.now columns.now self.old) }
        ensures err { IfErr result (λ e. (e ≡ Error.OutOfMemory) × (self.new ≡ self.old)) }
    {
        let resolver = ask_unknown(alloc, &self.types, parameters, columns)?;
        self.seeking = Seeking::Types(resolver);
        Ok(())
    }

    /// What isn't known of types that are declared by their names is to be looked up, in place of whatever was; no names of columns come behind it. An
    /// `Err` is want of memory, and nothing has changed.
    pub fn begin_names(&mut self, alloc: Global, names: &[Declared]) -> Result<(), Error>
        ensures ok { OnOk result (self.new ≡ begun_names names.now self.old) }
        ensures err { IfErr result (λ e. (e ≡ Error.OutOfMemory) × (self.new ≡ self.old)) }
    {
        self.seeking = Seeking::Types(ask_unnumbered(alloc, &self.types, names)?);
        Ok(())
    }

    /// The OIDs of types. `TypeNotFound` comes exactly where one isn't known, and has the name of the first, but for want of memory.
    pub fn oids(&self, alloc: Global, names: &[Declared]) -> Result<Oids, Error>
        ensures oids { IfOk result (λ oids. oids ≡ oids_under self.now.types names.now) }
        ensures known { OnOk result (unknown_name self.now.types names.now ≡ None) }
        ensures cause { IfErr result (RefusesType (unknown_name self.now.types names.now)) }
    {
        let mut oids = Oids::new(alloc);
        for of in names {
            match oid_under(alloc, &self.types, of)? {
                Some(oid) => oids.push(oid)?,
                None => return Err(not_found(alloc, of)),
            }
        }
        Ok(oids)
    }

    // The lookup of the names of columns, where they are wanted and one isn't known.
    fn seek_names(
        &mut self,
        alloc: Global,
        columns: &[PgColumn],
        names: bool,
    ) -> Result<Option<Text>, Error>
        ensures ok { IfOk result (λ text. SeeksNames columns.now names self.old text self.new) }
        ensures err { IfErr result (λ e. e ≡ Error.OutOfMemory) }
        ensures kept { (self.new.types ≡ self.old.types) × (self.new.tables ≡ self.old.tables) }
    {
        self.seeking = Seeking::Nothing;
        if !names {
            return Ok(None);
        }
        let mut resolver = ColumnResolver::new(alloc);
        push_names(&self.tables, &mut resolver, columns)?;
        match resolver.query(alloc) {
            Ok(Some(text)) => {
                self.seeking = Seeking::Names(resolver);
                Ok(Some(text))
            }
            Ok(None) => Ok(None),
            Err(_) => Err(Error::OutOfMemory),
        }
    }

    // The next lookup of types. There is none where nothing is asked, or 64 were made: then no row may wait.
    fn seek_types(&mut self, alloc: Global) -> Result<Option<Text>, Error>
        ensures ok { IfOk result (λ text. SeeksOn self.old.seeking text self.new.seeking) }
        ensures err { IfErr result (IsUnsought self.old self.new) }
        ensures kept { (self.new.types ≡ self.old.types) × (self.new.tables ≡ self.old.tables) }
    {
        let Seeking::Types(resolver) = &mut self.seeking else {
            return Ok(None);
        };
        match resolver.query(alloc) {
            Ok(Some(text)) => Ok(Some(text)),
            Ok(None) => {
                resolver.ended(alloc)?;
                Ok(None)
            }
            Err(_) => Err(Error::OutOfMemory),
        }
    }

    /// The text of the next lookup, where there is one: of types, in rounds, and then, where they are wanted, of the names of columns.
    pub fn seek(
        &mut self,
        alloc: Global,
        columns: &[PgColumn],
        names: bool,
    ) -> Result<Option<Text>, Error>
        ensures ok { IfOk result (λ text. Seeks columns.now names self.old text self.new) }
        ensures err { IfErr result (IsUnsought self.old self.new) }
        ensures kept { (self.new.types ≡ self.old.types) × (self.new.tables ≡ self.old.tables) }
    {
        if !matches!(self.seeking, Seeking::Types(_)) {
            self.seeking = Seeking::Nothing;
            return Ok(None);
        }
        match self.seek_types(alloc)? {
            Some(text) => Ok(Some(text)),
            None => self.seek_names(alloc, columns, names),
        }
    }

    /// Takes a row of the lookup that is under way.
    pub fn take(&mut self, alloc: Global, values: &DataRow) -> Result<(), Error>
        ensures { TakesRow values.now self.old self.new result }
    {
        match &mut self.seeking {
            Seeking::Nothing => Ok(()),
            Seeking::Types(resolver) => {
                let row = type_row(alloc, values)?;
                resolver.take_row(alloc, &mut self.types, row)
            }
            Seeking::Names(resolver) => {
                let row = column_row(alloc, values)?;
                resolver.take_row(&mut self.tables, row)
            }
        }
    }
}

//! What follows from the definitions in `specs/`: each law is the contract of a function that does nothing.

ghost use Rattle.std.specs.Prelude.{◌≡◌, ◌≢◌, ◌⊎◌, ◌≤◌, ◌<◌, Result, Ok, ℕ, ℤ, suc, Some, None, List, ◌∷◌, ◌++◌, [], length, unwrap_or, FitsSigned};
ghost use Rattle.std.specs.Int.{w16};
ghost use Rattle.pg_arguments.specs.Types.{TypeParts, most_levels};
ghost use Rattle.pg_wire.specs.declared.error.Error.{Error};
ghost use Rattle.pg_wire.specs.declared.error.Error.TheVariants as errors;
ghost use Rattle.pg_resolve.specs.declared.row.TypeResolverRow.{TypeResolverRow};
ghost use Rattle.pg_resolve.specs.declared.row.ColumnResolverRow.{ColumnResolverRow};
ghost use Rattle.pg_resolve.specs.Cached.{CacheSeen, known};
ghost use Rattle.pg_resolve.specs.Tried.{tried, Waits, Refuses};
ghost use Rattle.pg_resolve.specs.Rows.{parts_of, made_from};
ghost use Rattle.pg_resolve.specs.Settling.{NeedsType, Settles, IsWaiting, IsEntered, IsRefusal, AllOf, Has};
ghost use Rattle.pg_resolve.specs.Rounds.{TakesAll, Reached, IsAnswered, IsAcyclic, IsNew, IsAmong, Runs, ReadsFirst, BeginsNew};
ghost use Rattle.pg_resolve.specs.Resolving.{ResolverSeen, no_rows, again, waiting_for, Queries, Ends};
ghost use Rattle.pg_resolve.specs.Sound.{IsSound, IsComplete};
ghost use Rattle.pg_resolve.specs.Tables.{TablesSeen, column_key, table_name, column_name, column_named, with_row, HaveNumbers, IsLastName};
ghost use Rattle.pg_resolve.specs.Catalog.{Catalog, IsIn, meaning_within, meaning};

/// What an OID means by rows that stand any number of times in each other it means by as many as there are rows.
pub fn as_many_steps_as_rows_are_enough()
    ensures { (catalog : Catalog) (n oid : ℕ) (t : TypeParts) → meaning_within catalog n oid ≡ Some t → meaning catalog oid ≡ Some t }
{}

/// In whatever order rows of one catalog are taken, each cached type is its meaning afterwards if each was before, and each row is cached or
/// waits.
pub fn rows_may_come_in_any_order()
    ensures sound { (catalog : Catalog) (rows : List TypeResolverRow) (s t : ResolverSeen) (c d : CacheSeen) → TakesAll rows s c t d →
        ((row : TypeResolverRow) → Has rows row → IsIn catalog row) → AllOf catalog s → IsSound catalog c → IsSound catalog d }
    ensures kept { (rows : List TypeResolverRow) (s t : ResolverSeen) (c d : CacheSeen) → TakesAll rows s c t d →
        (row : TypeResolverRow) → Has rows row → IsEntered d row ⊎ IsWaiting t row }
{}

/// A row that waits for a type leaves what is known, and the type that it waits for is one that it needs and that isn't known.
pub fn a_row_waits_for_what_it_needs()
    ensures { (row : TypeResolverRow) (p : ℕ) (c d : CacheSeen) → tried c row ≡ Waits p d → NeedsType row p × (known d p ≡ None) × ((oid : ℕ) → known d oid ≡ known c oid) }
{}

/// A resolver that has taken no step has lost nothing.
pub fn the_first_step()
    ensures { (taken : TypeResolverRow) (s : ResolverSeen) (c : CacheSeen) → Settles taken s c (taken ∷ []) s c }
{}

/// Each round reads a new row: where a row waits, all that was asked was answered and no type needs itself, the next lookup asks for a
/// type of which no row was taken yet.
pub fn each_round_reads_a_new_row()
    ensures { (rank : ℕ → ℕ) (asked read : List ℕ) (s : ResolverSeen) (c : CacheSeen) → Reached asked read s c → IsAnswered asked read → IsAcyclic rank s →
        (row : TypeResolverRow) → IsWaiting s row → IsNew read s c }
{}

/// This holds at first, and after each row that is taken.
pub fn rows_are_kept_track_of()
    ensures first { (c : CacheSeen) → Reached [] [] no_rows c }
    ensures next { (asked read : List ℕ) (row : TypeResolverRow) (s t : ResolverSeen) (c d : CacheSeen) →
        Reached asked read s c → Settles row s c [] t d → Reached asked (read ++ row.oid ∷ []) t d }
{}

/// 64 rounds are enough for at most 63 types: where each type that is asked has a row and none needs itself, more rounds than types
/// leave no row waiting, and then `ended` has nothing to say. Where the first round reads a row of one of the types too, as many
/// rounds as types are enough.
pub fn as_many_rounds_as_types_are_enough()
    ensures any { (rank : ℕ → ℕ) (types : List ℕ) (n : ℕ) (asked read : List ℕ) (s : ResolverSeen) (c : CacheSeen) →
        Runs rank types n asked read s c → IsAcyclic rank s → IsAmong types s → length types < n → s.waiting ≡ [] }
    ensures first { (rank : ℕ → ℕ) (types : List ℕ) (n : ℕ) (asked read : List ℕ) (s : ResolverSeen) (c : CacheSeen) (runs : Runs rank types (suc n) asked read s c) →
        ReadsFirst rank types (suc n) asked read s c runs → IsAcyclic rank s → IsAmong types s → length types ≤ suc n → s.waiting ≡ [] }
{}

/// Where a resolver hands out no further lookup, because nothing is asked or 64 were made, `ended` is Ok: for at most 63 types, or for 64 where
/// the first round reads a row of one of them.
pub fn lookups_come_to_an_end()
    ensures any { (rank : ℕ → ℕ) (types : List ℕ) (n : ℕ) (asked read : List ℕ) (s t : ResolverSeen) (c : CacheSeen) (result : Result (Unit {0}) Error) (runs : Runs rank types n asked read s c) →
        BeginsNew rank types n asked read s c runs → IsAcyclic rank s → IsAmong types s → length types < 64 → Queries s None t → Ends t result → result ≡ Ok tt }
    ensures first { (rank : ℕ → ℕ) (types : List ℕ) (n : ℕ) (asked read : List ℕ) (s t : ResolverSeen) (c : CacheSeen) (result : Result (Unit {0}) Error) (runs : Runs rank types (suc n) asked read s c) →
        BeginsNew rank types (suc n) asked read s c runs → ReadsFirst rank types (suc n) asked read s c runs → IsAcyclic rank s → IsAmong types s → length types ≤ 64 → Queries s None t → Ends t result → result ≡ Ok tt }
{}

/// Where all rows are of a complete catalog and each cached type is its meaning, a row is refused only for want of memory.
pub fn rows_of_a_complete_catalog_are_taken()
    ensures { (catalog : Catalog) (taken : TypeResolverRow) (s : ResolverSeen) (c : CacheSeen) (e : Error) →
        IsComplete catalog → IsIn catalog taken → AllOf catalog s → IsSound catalog c → IsRefusal taken s c e → e ≡ errors.OutOfMemory }
{}

/// A row is refused only where it lacks the base, element or subtype of its sort, or its type would have more than 64 levels.
pub fn a_row_is_refused_for_cause()
    ensures { (row : TypeResolverRow) (c : CacheSeen) → tried c row ≡ Refuses →
        (parts_of row ≡ None) ⊎ ((made : TypeParts) × (made_from (known c) row ≡ Some (Ok made)) × (64 ≤ most_levels made)) }
{}

/// No lookup is needless: what is asked beside what was pushed isn't known, and a row waits for it.
pub fn no_lookup_is_needless()
    ensures { (asked read : List ℕ) (s : ResolverSeen) (c : CacheSeen) → Reached asked read s c → (p : ℕ) → Has (again s.waiting [] s.began) p →
        (known c p ≡ None) × ((row : TypeResolverRow) × Has (waiting_for s p) row) }
{}

/// Names of columns are kept by table and number: a row that is taken names each of its columns, the last one where a number stands twice,
/// and changes no other. The first name of a table stays.
pub fn a_row_names_its_columns()
    ensures keys { (m n : ℕ) (a b : ℤ) → FitsSigned w16 a → FitsSigned w16 b → column_key m a ≡ column_key n b → (m ≡ n) × (a ≡ b) }
    ensures named { (row : ColumnResolverRow) (c : TablesSeen) (attribute : ℤ) (name : List ℕ) → HaveNumbers row.columns → IsLastName attribute name row.columns →
        column_named (with_row row c) row.table_oid attribute ≡ Some (unwrap_or (table_name c row.table_oid) row.table_name, name) }
    ensures tables { (row : ColumnResolverRow) (c : TablesSeen) (table : ℕ) → table ≢ row.table_oid → table_name (with_row row c) table ≡ table_name c table }
    ensures columns { (row : ColumnResolverRow) (c : TablesSeen) (table : ℕ) (attribute : ℤ) → HaveNumbers row.columns → FitsSigned w16 attribute →
        ((name : List ℕ) → Has row.columns (attribute, name) → table ≢ row.table_oid) → column_name (with_row row c) table attribute ≡ column_name c table attribute }
{}

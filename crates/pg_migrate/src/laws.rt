//! What follows from the definitions of this crate, each the contract of a function that does nothing.

ghost use Rattle.std.specs.Prelude.{◌≡◌, ℕ, true, false, List, [], ◌∷◌, ◌++◌, Some, codes, pos};
ghost use Rattle.pg_migrate.specs.Crc32.{crc32, lock_id};
ghost use Rattle.pg_migrate.specs.Quoting.{BeginsOtherwise, quoted, unquoted};
ghost use Rattle.pg_migrate.specs.Orders.{Begin, Commit, Script, apply_statements, revert_statements, row_of, time_of, without_row};
ghost use Rattle.pg_migrate.specs.declared.migration.Migration.{Migration as MigrationOf};

/// The checksum of the digits from 1 to 9 is the standard's check value, and a database of this name has this lock.
pub fn the_checksum_has_its_check_value()
    ensures checksum { crc32 (codes "123456789") ≡ 0xcbf43926 }
    ensures lock { lock_id (codes "123456789") ≡ pos 3513249314174792564 }
{}

/// What was quoted is read back, up to its last mark, whatever follows but another mark.
pub fn a_quoted_text_is_read_back()
    ensures { (mark : ℕ) (text rest : List ℕ) → BeginsOtherwise mark rest → unquoted mark (quoted mark text ++ rest) ≡ Some (text, rest) }
{}

/// A commit stands behind the script and the row, and the time behind the commit.
pub fn a_migration_has_this_order()
    ensures apply { (table : List ℕ) (m : MigrationOf) (nanos : ℕ) → m.no_tx ≡ false →
        apply_statements table m nanos ≡ Begin ∷ Script m.sql ∷ row_of table m ∷ Commit ∷ time_of table m nanos ∷ [] }
    ensures apply_alone { (table : List ℕ) (m : MigrationOf) (nanos : ℕ) → m.no_tx ≡ true →
        apply_statements table m nanos ≡ Script m.sql ∷ row_of table m ∷ time_of table m nanos ∷ [] }
    ensures revert { (table : List ℕ) (m : MigrationOf) → m.no_tx ≡ false →
        revert_statements table m ≡ Begin ∷ Script m.sql ∷ without_row table m ∷ Commit ∷ [] }
    ensures revert_alone { (table : List ℕ) (m : MigrationOf) → m.no_tx ≡ true →
        revert_statements table m ≡ Script m.sql ∷ without_row table m ∷ [] }
{}

//! Worked examples of what `specs/` defines: the bytes of some messages, and short conversations whose frames are replies, or are none. Each is
//! the contract of a function that does nothing.

ghost use Rattle.std.specs.Prelude.{◌≡◌, List, [], ◌∷◌, ◌++◌, None, codes, map};
ghost use Rattle.pg_wire.specs.Frame.{bytes_of, text_of, backend_tags};
ghost use Rattle.pg_wire.specs.Cut.{cut};
ghost use Rattle.pg_wire.specs.Parts.{heard, groups, parts};
ghost use Rattle.pg_wire.specs.Completion.{rows_affected};
ghost use Rattle.pg_wire.specs.Frontend.{frontend_frame, startup, Query, Parse, DescribeStatement, Execute, Sync, CopyData, CopyDone, CopyFail};
ghost use Rattle.pg_wire.specs.Backend.{backend_frame, BackendKeyData, NotificationResponse, ReadyForQuery, RowDescription, DataRow, CommandComplete, ErrorResponse};
ghost use Rattle.pg_wire.specs.Server.{AreReplies};
ghost use Rattle.pg_wire.specs.Copying.{AreCopyReplies};
ghost use Rattle.pg_wire.specs.Transactions.{AreTransactionReplies, TellsStatuses, told, StatusAfterSuccess, StatusAfterFailure};
ghost use Rattle.pg_wire.specs.Exchanges as example;
ghost use Rattle.pg_wire.specs.declared.status.TransactionStatus.{TransactionStatus};
ghost use Rattle.pg_wire.specs.declared.status.TransactionStatus.TheVariants as statuses;

/// Some messages byte for byte, and the rows that some tags count.
pub fn messages_have_these_bytes()
    ensures startup { startup (codes "u") None example.settings ≡
        0 ∷ 0 ∷ 0 ∷ 0x5a ∷ 0 ∷ 3 ∷ 0 ∷ 0 ∷ codes "user" ++ 0 ∷ codes "u" ++ 0
        ∷ codes "DateStyle" ++ 0 ∷ codes "ISO, MDY" ++ 0 ∷ codes "client_encoding" ++ 0 ∷ codes "UTF8" ++ 0
        ∷ codes "TimeZone" ++ 0 ∷ codes "UTC" ++ 0 ∷ codes "extra_float_digits" ++ 0 ∷ codes "2" ++ 0 ∷ 0 ∷ [] }
    ensures query { bytes_of (frontend_frame (Query (codes "SELECT 1"))) ≡
        0x51 ∷ 0 ∷ 0 ∷ 0 ∷ 0x0d ∷ codes "SELECT 1" ++ 0 ∷ [] }
    ensures named_parse { bytes_of (frontend_frame (Parse (codes "sqlx_s_1234567890") (codes "SELECT $1") (25 ∷ []))) ≡
        0x50 ∷ 0 ∷ 0 ∷ 0 ∷ 0x26 ∷ codes "sqlx_s_1234567890" ++ 0 ∷ codes "SELECT $1" ++ 0 ∷ 0 ∷ 1 ∷ 0 ∷ 0 ∷ 0 ∷ 25 ∷ [] }
    ensures parse { bytes_of (frontend_frame (Parse [] (codes "SELECT $1") (25 ∷ []))) ≡
        0x50 ∷ 0 ∷ 0 ∷ 0 ∷ 0x15 ∷ 0 ∷ codes "SELECT $1" ++ 0 ∷ 0 ∷ 1 ∷ 0 ∷ 0 ∷ 0 ∷ 25 ∷ [] }
    ensures named_describe { bytes_of (frontend_frame (DescribeStatement (codes "sqlx_s_1234567890"))) ≡
        0x44 ∷ 0 ∷ 0 ∷ 0 ∷ 0x17 ∷ codes "Ssqlx_s_1234567890" ++ 0 ∷ [] }
    ensures describe { bytes_of (frontend_frame (DescribeStatement [])) ≡ 0x44 ∷ 0 ∷ 0 ∷ 0 ∷ 6 ∷ 0x53 ∷ 0 ∷ [] }
    ensures execute { bytes_of (frontend_frame (Execute [] 1234567890)) ≡
        0x45 ∷ 0 ∷ 0 ∷ 0 ∷ 9 ∷ 0 ∷ 0x49 ∷ 0x96 ∷ 0x02 ∷ 0xd2 ∷ [] }
    ensures notification { bytes_of (backend_frame (NotificationResponse 0x34201002 (codes "TEST-CHANNEL") (codes "THIS IS A TEST"))) ≡
        0x41 ∷ 0 ∷ 0 ∷ 0 ∷ 0x24 ∷ 0x34 ∷ 0x20 ∷ 0x10 ∷ 2 ∷ codes "TEST-CHANNEL" ++ 0 ∷ codes "THIS IS A TEST" ++ 0 ∷ [] }
    ensures key_data { bytes_of (backend_frame (BackendKeyData 10182 2303903019)) ≡
        0x4b ∷ 0 ∷ 0 ∷ 0 ∷ 12 ∷ 0 ∷ 0 ∷ 0x27 ∷ 0xc6 ∷ 0x89 ∷ 0x52 ∷ 0xc5 ∷ 0x2b ∷ [] }
    ensures insert { rows_affected (codes "INSERT 0 1214") ≡ 1214 }
    ensures begin { rows_affected (codes "BEGIN") ≡ 0 }
{}

/// A notice, a parameter change and a notification stand beside the replies.
pub fn asynchronous_messages_are_unheard()
    ensures { heard (map backend_frame example.beside_ready) ≡ backend_frame (ReadyForQuery statuses.Idle) ∷ [] }
{}

/// A row is asked for and comes. The response is cut into its four frames, also where a fifth has come in part, and two responses into two.
pub fn select_is_answered()
    ensures replies { AreReplies (frontend_frame (Query (codes "SELECT 1")) ∷ [])
        (map backend_frame example.selected) }
    ensures frames { cut backend_tags (text_of (map backend_frame example.selected) ++ 0x44 ∷ 0 ∷ 0 ∷ []) ≡
        (map backend_frame example.selected, 0x44 ∷ 0 ∷ 0 ∷ []) }
    ensures responses { parts (map backend_frame (example.selected ++ example.selected)) ≡
        map backend_frame example.selected ∷ map backend_frame example.selected ∷ [] }
{}

/// A text without a command, one with two, one with an error at once, and one with an error behind a row.
pub fn query_texts_are_answered()
    ensures empty { AreReplies (frontend_frame (Query []) ∷ []) (map backend_frame example.empty) }
    ensures two { AreReplies (frontend_frame (Query (codes "SET a TO b; VALUES (1), (1)")) ∷ [])
        (map backend_frame example.two_segments) }
    ensures error { AreReplies (frontend_frame (Query (codes "SELECT; SELECT 1")) ∷ [])
        (map backend_frame (example.failed statuses.Idle)) }
    ensures late { AreReplies (frontend_frame (Query (codes "SELECT 1 / a FROM b")) ∷ [])
        (map backend_frame example.failed_late) }
{}

/// A statement is prepared and described, and executed; its Parse fails, and what follows is skipped; a transaction fails as it ends.
pub fn extended_groups_are_answered()
    ensures two_groups { groups (map frontend_frame (example.described_group ++ example.described_group)) ≡
        map frontend_frame example.described_group ∷ map frontend_frame example.described_group ∷ [] }
    ensures no_columns { AreReplies (map frontend_frame example.described_group)
        (map backend_frame example.none_described) }
    ensures executed { AreReplies (map frontend_frame (example.described_group ++ example.executed_group))
        (map backend_frame (example.one_described ++ example.one_executed)) }
    ensures parse_fails { AreReplies (map frontend_frame example.described_group)
        (map backend_frame (example.failed statuses.Idle)) }
    ensures end_fails { AreReplies (frontend_frame Sync ∷ []) (map backend_frame (example.failed statuses.Idle)) }
{}

/// A copy to the client, a copy from the client that it breaks off, and one that it finishes.
pub fn copies_are_answered()
    ensures out { AreCopyReplies (frontend_frame (Query (codes "COPY t TO STDOUT")) ∷ [])
        (map backend_frame (example.copied_out ++ ReadyForQuery statuses.Idle ∷ [])) }
    ensures broken { AreCopyReplies
        (frontend_frame (Query (codes "COPY t FROM STDIN")) ∷ frontend_frame (CopyFail (codes "no")) ∷ [])
        (map backend_frame example.copy_broken) }
    ensures finished { AreCopyReplies
        (frontend_frame (Query (codes "COPY t FROM STDIN")) ∷ frontend_frame (CopyData (codes "a")) ∷ frontend_frame CopyDone ∷ [])
        (map backend_frame example.copy_finished) }
{}

/// A transaction that fails and is rolled back, and the status behind some texts. A COMMIT that leaves the transaction open, and a ROLLBACK that
/// fails, are not within the rule for the status.
pub fn statuses_follow_the_rule()
    ensures transaction { AreTransactionReplies [] (map frontend_frame example.transaction)
        (map backend_frame example.rolled_back) }
    ensures back { (after : TransactionStatus) →
        StatusAfterSuccess [] statuses.Error (codes "ROLLBACK TO SAVEPOINT _sqlx_savepoint_1") after →
        after ≡ statuses.Transaction }
    ensures other { (before after : TransactionStatus) → StatusAfterSuccess [] before (codes "SELECT 1") after →
        after ≡ before }
    ensures opening { StatusAfterSuccess (codes "BEGIN READ ONLY" ∷ []) statuses.Idle (codes "BEGIN READ ONLY") statuses.Transaction }
    ensures failed_begin { (after : TransactionStatus) → StatusAfterFailure statuses.Idle (codes "BEGIN") after →
        after ≡ statuses.Idle }
    ensures open_commit { TellsStatuses [] (told statuses.Transaction) (Query (codes "COMMIT") ∷ [])
        (example.completed (codes "COMMIT") statuses.Transaction ∷ []) → ⊥ }
    ensures failed_rollback { TellsStatuses [] (told statuses.Transaction) (Query (codes "ROLLBACK") ∷ [])
        (example.failed statuses.Error ∷ []) → ⊥ }
{}

/// No replies to a Query: ReadyForQuery at once, a row wider than its description, and a further segment behind an error.
pub fn these_are_no_replies()
    ensures ready { AreReplies (frontend_frame (Query (codes "SELECT 1")) ∷ [])
        (map backend_frame (ReadyForQuery statuses.Idle ∷ [])) → ⊥ }
    ensures wide { AreReplies (frontend_frame (Query (codes "SELECT 1")) ∷ [])
        (map backend_frame (RowDescription (example.one_column ∷ []) ∷ DataRow (None ∷ None ∷ []) ∷ [])) → ⊥ }
    ensures behind_error { AreReplies (frontend_frame (Query (codes "SELECT 1; SET a TO b")) ∷ [])
        (map backend_frame (ErrorResponse example.syntax_error ∷ CommandComplete (codes "SET") ∷ [])) → ⊥ }
{}

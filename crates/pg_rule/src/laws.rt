//! What follows from the table of the calls and their groups, each the contract of a function that does nothing.

ghost use Rattle.std.specs.Prelude.{◌≡◌, ◌≢◌, ◌⊎◌, ◌<◌, ◌≤◌, ◌^◌, ℕ, List, [], ◌∷◌, ◌++◌, Option, Some, None, IfSome, length, map, codes, ◌-◌};
ghost use Rattle.std.specs.List.{AllByRecursion, last_or};
ghost use Rattle.pg_wire.specs.Bytes.{HasNoNul};
ghost use Rattle.pg_wire.specs.Frame.{Frame};
ghost use Rattle.pg_wire.specs.Frontend as frontend;
ghost use Rattle.pg_wire.specs.Backend.{BackendMessage, backend_frame, HasBackendFrame};
ghost use Rattle.pg_wire.specs.Server.{Server};
ghost use Rattle.pg_wire.specs.Groups.{IsBetween};
ghost use Rattle.pg_wire.specs.Acceptor.{FirstSegment};
ghost use Rattle.pg_request.specs.Queries.{QueryText};
ghost use Rattle.pg_exchanges.specs.Expecting.{Closes, Expected, InQuery, InSteps, behind, HasWidths, MayNotFollow, BeginsKnowing};
ghost use Rattle.pg_exchanges.specs.Answering.{closing};
ghost use Rattle.pg_rule.specs.Caches.{entry_at, names_in};
ghost use Rattle.pg_rule.specs.declared.cache.Entry.{Entry as EntryOf};
ghost use Rattle.pg_rule.specs.declared.rule.Rule.{Rule as RuleOf};
ghost use Rattle.pg_rule.specs.Rules.{new_rule, opened, closed, drawn, hit, holding, kept, forgotten, cleared, IsFull, IsOrderly, IsNewest};
ghost use Rattle.pg_request.specs.Texts.{begin_text, commit_text, rollback_text};
ghost use Rattle.pg_rule.specs.Rows.{Group, Asked, Run, Begin, Commit, Rollback, Clear, Ping, Exchange, Plan, Main, awaited_by, known_widths, MayBegin, Asks, CanBeAsked, AsksNothing, start_rollback, rolled_back};

/// A query without arguments is one Query, and what is known of the session stays.
pub fn a_query_without_arguments_is_one_query()
    ensures { (old : RuleOf) (query : QueryText) → HasNoNul query.sql →
        Asks old (Run query) [] (Main (InQuery FirstSegment)) (frontend.Query query.sql ∷ []) old }
{}

/// A transaction and a savepoint are begun and ended by one Query each, with the text of this depth.
pub fn a_transaction_call_is_one_query()
    ensures begin { (old : RuleOf) (text : Option (List ℕ)) → old.depth < 2 ^ 64 → IfSome text HasNoNul → MayBegin text old.depth →
        Asks old (Begin text) [] (Main (InQuery FirstSegment)) (frontend.Query (begin_text text old.depth) ∷ []) old }
    ensures commit { (old : RuleOf) → old.depth < 2 ^ 64 → 0 < old.depth →
        Asks old Commit [] (Main (InQuery FirstSegment)) (frontend.Query (commit_text (old.depth - 1)) ∷ []) old }
    ensures rollback { (old : RuleOf) → old.depth < 2 ^ 64 → 0 < old.depth →
        Asks old Rollback [] (Main (InQuery FirstSegment)) (frontend.Query (rollback_text (old.depth - 1)) ∷ []) old }
{}

/// A clear is one group that closes each kept statement, the one that was used last at the end; then none is kept, and a CloseComplete for each
/// is awaited.
pub fn a_clear_is_one_group_of_closes()
    ensures { (old : RuleOf) → AllByRecursion (λ e. e.statement < 2 ^ 32) old.cache.entries → old.cache.entries ≢ [] →
        Asks old Clear [] (Main (InSteps (map (λ name. Closes) (names_in old.cache.entries)))) (closing (names_in old.cache.entries)) (cleared old) }
{}

/// A ping is one Sync, of which ReadyForQuery is awaited.
pub fn a_ping_is_one_sync()
    ensures { (old : RuleOf) → Asks old Ping [] (Main (InSteps [])) (frontend.Sync ∷ []) old }
{}

/// Each call that can be asked queues the group of a row, or asks nothing, and never both; and it has one row alone.
pub fn each_call_has_one_row()
    ensures some { (old : RuleOf) (asked : Asked) → old.depth < 2 ^ 64 → CanBeAsked old asked →
        AsksNothing old asked
        ⊎ ((done : List Exchange) × (plan : Plan) × (group : Group) × (rule : RuleOf) × Asks old asked done plan group rule) }
    ensures nothing { (old : RuleOf) (asked : Asked) (done : List Exchange) (plan : Plan) (group : Group) (rule : RuleOf) →
        AsksNothing old asked → Asks old asked done plan group rule → ⊥ }
    ensures alone { (old : RuleOf) (asked : Asked) (done other : List Exchange) (plan second : Plan) (group next : Group) (rule after : RuleOf) →
        Asks old asked done plan group rule → Asks old asked other second next after →
        (done ≡ other) × (awaited_by plan ≡ awaited_by second) × (group ≡ next) × (rule ≡ after) }
{}

/// The response to the group of a row: what isn't awaited begins none of any server that has the statements that are kept, and what is awaited
/// begins one of some such server, where there is one.
pub fn a_response_to_a_row_is_what_is_awaited()
    ensures refused { (old : RuleOf) (asked : Asked) (done : List Exchange) (plan : Plan) (group : Group) (rule : RuleOf)
        (own : List BackendMessage) (e : Expected) (frame : Frame) →
        Asks old asked done plan group rule → AllByRecursion HasBackendFrame own →
        behind (awaited_by plan) own ≡ Some e → MayNotFollow e frame →
        BeginsKnowing (known_widths rule done) group (map backend_frame own ++ frame ∷ []) → ⊥ }
    ensures accepted { (old : RuleOf) (asked : Asked) (done : List Exchange) (plan : Plan) (group : Group) (rule : RuleOf)
        (server : Server) (own : List BackendMessage) (e : Expected) →
        Asks old asked done plan group rule → IsBetween server → HasWidths server (known_widths rule done) →
        behind (awaited_by plan) own ≡ Some e → AllByRecursion HasBackendFrame own →
        BeginsKnowing (known_widths rule done) group (map backend_frame own) }
{}

/// A rollback without a call is one Query where something is open, which a frame can carry, and else nothing.
pub fn a_rollback_without_a_call_is_one_query_at_most()
    ensures open { (rule : RuleOf) → 0 < rule.depth →
        start_rollback rule ≡ (frontend.Query (rollback_text (rule.depth - 1)) ∷ []) ∷ [] }
    ensures said { (rule : RuleOf) → rule.depth < 2 ^ 64 → HasNoNul (rollback_text (rule.depth - 1)) }
    ensures nothing { (rule : RuleOf) → rule.depth ≡ 0 → start_rollback rule ≡ [] }
    ensures of_a_begin { (old : RuleOf) (text : Option (List ℕ)) → old.depth ≡ 0 →
        rolled_back old (Begin text) ≡ (frontend.Query (codes "ROLLBACK") ∷ []) ∷ [] }
{}

/// What is known of a session stays orderly: behind start-up, and by each move; the statement whose number was drawn last may be held. So the widths
/// of the kept statements are those of some server, and their closes can be asked.
pub fn a_session_stays_orderly()
    ensures new { (capacity : ℕ) → IsOrderly (new_rule capacity) }
    ensures depth { (rule : RuleOf) → IsOrderly rule → IsOrderly (opened rule) × IsOrderly (closed rule) }
    ensures draw { (rule : RuleOf) → rule.next < 2 ^ 32 → IsOrderly rule → IsOrderly (drawn rule) }
    ensures touch { (rule : RuleOf) (number : ℕ) → IsOrderly rule → IsOrderly (hit number rule) }
    ensures hold { (rule : RuleOf) (e : EntryOf) → IsOrderly rule → IsNewest e rule → IsOrderly (holding e rule) }
    ensures put { (rule : RuleOf) → IsOrderly rule → IsOrderly (kept rule) }
    ensures forget { (rule : RuleOf) → IsOrderly rule → IsOrderly (forgotten rule) }
    ensures clear { (rule : RuleOf) → IsOrderly rule → IsOrderly (cleared rule) }
    ensures drawn_is_newest { (rule : RuleOf) (e : EntryOf) → IsOrderly rule → e.statement ≡ rule.next → IsNewest e (drawn rule) }
    ensures server { (rule : RuleOf) (done : List Exchange) → IsOrderly rule →
        (server : Server) × IsBetween server × HasWidths server (known_widths rule done) }
    ensures closes { (rule : RuleOf) → IsOrderly rule → CanBeAsked rule Clear }
{}

/// A hit moves its statement alone: it comes to the front, and the others stay in their order. A number that none has moves nothing.
pub fn a_hit_moves_its_statement_to_the_front()
    ensures moved { (rule : RuleOf) (before after : List EntryOf) (e : EntryOf) → IsOrderly rule →
        rule.cache.entries ≡ before ++ e ∷ after → (hit e.statement rule).cache.entries ≡ e ∷ before ++ after }
    ensures unmoved { (rule : RuleOf) (number : ℕ) → AllByRecursion (λ e. e.statement ≢ number) rule.cache.entries → hit number rule ≡ rule }
{}

/// What a put does to the statements that are kept: where there is a place none leaves, and where there is none the last one leaves alone. The
/// one that was held is found by its text then. Where none is held nothing changes.
pub fn a_put_lets_go_of_the_last_statement_at_most()
    ensures place { (rule : RuleOf) (e : EntryOf) → rule.cache.held ≡ Some e → length rule.cache.entries < rule.capacity →
        (kept rule).cache.entries ≡ e ∷ rule.cache.entries }
    ensures full { (rule : RuleOf) (e last : EntryOf) → IsOrderly rule → IsFull rule → rule.cache.held ≡ Some e →
        last_or None rule.cache.entries ≡ Some last →
        (others : List EntryOf) × (rule.cache.entries ≡ others ++ last ∷ []) × ((kept rule).cache.entries ≡ e ∷ others) }
    ensures found { (rule : RuleOf) (e : EntryOf) → 0 < rule.capacity → rule.cache.held ≡ Some e →
        entry_at e.sql (kept rule).cache.entries ≡ Some e }
    ensures nothing { (rule : RuleOf) → IsOrderly rule → rule.cache.held ≡ None → kept rule ≡ rule }
{}

/// Transactions and savepoints at their depths, by their texts.
pub fn transactions_have_these_texts()
    ensures begin { begin_text None 0 ≡ codes "BEGIN" }
    ensures begin_within { begin_text None 1 ≡ codes "SAVEPOINT _sqlx_savepoint_1" }
    ensures begin_with { begin_text (Some (codes "BEGIN READ ONLY")) 0 ≡ codes "BEGIN READ ONLY" }
    ensures commit { commit_text 0 ≡ codes "COMMIT" }
    ensures commit_within { commit_text 2 ≡ codes "RELEASE SAVEPOINT _sqlx_savepoint_2" }
    ensures rollback { rollback_text 0 ≡ codes "ROLLBACK" }
    ensures rollback_within { rollback_text 1 ≡ codes "ROLLBACK TO SAVEPOINT _sqlx_savepoint_1" }
{}

//! What follows from the definitions in `specs/`: laws of the protocol, each the contract of a function that does nothing. They are proved of
//! the definitions alone; a contract that cites the same words may rest on them.

ghost use Rattle.std.specs.Prelude.{◌≡◌, ◌⊎◌, ◌≢◌, ℕ, ◌+◌, ◌<◌, ◌^◌, List, [], ◌∷◌, ◌++◌, Option, Some, None, Bool, true, false, IsTrue, flat_map, map, length, codes, bytes_eq, count_by, ◌≤◌};
ghost use Rattle.std.specs.List.{AllByRecursion, list_any};
ghost use Rattle.pg_wire.specs.Bytes.{AreBytes, HasNoNul};
ghost use Rattle.pg_wire.specs.Frame.{Frame, IsWhole, text_of, bytes_of, backend_tags, frontend_tags, is_known};
ghost use Rattle.pg_wire.specs.Cut.{Cuts, cut, BeginsUnknown, BeginsShort};
ghost use Rattle.pg_wire.specs.Frontend.{FrontendMessage, frontend_frame, HasFrontendFrame};
ghost use Rattle.pg_wire.specs.Backend.{FieldDescription, Values, BackendMessage, backend_frame, HasBackendFrame};
ghost use Rattle.pg_wire.specs.Backend as backend;
ghost use Rattle.pg_wire.specs.Frontend as frontend;
ghost use Rattle.pg_wire.specs.declared.fields.ErrorField.{ErrorField};
ghost use Rattle.pg_wire.specs.declared.status.TransactionStatus.{TransactionStatus};
ghost use Rattle.pg_wire.specs.declared.status.TransactionStatus.TheVariants as statuses;
ghost use Rattle.pg_wire.specs.Parts.{heard, groups, parts, ends_group, is_ready, cut_after};
ghost use Rattle.pg_wire.specs.Groups.{IsGroup, IsBetween, AnswerGroups, says_ready, IsInner, IsUnready, AreUnready, EndsReady};
ghost use Rattle.pg_wire.specs.Pieces.{PiecesOf, BeginsResponse, IsNoCopy};
ghost use Rattle.pg_wire.specs.Server.{AreReplies, MayHear, IsPrefixOf, Server, Statement, statement_at, portal_at, fresh_server, ServerStep, ServerRun, IsQueryResponse};
ghost use Rattle.pg_wire.specs.Acceptor as acceptor;
ghost use Rattle.pg_wire.specs.Copying.{AreCopyReplies, CopyServer, CopyStep, CopyRun, NotCopying, QueryCopies, ExecuteCopies};
ghost use Rattle.pg_wire.specs.Refusals.{BeginsCopyResponse, IsRefused, AnswersNoSync};
ghost use Rattle.pg_wire.specs.Transactions.{AreTransactionReplies, StatusAfter};

// Frames.

/// A frame carries at most one message of a client: no two messages have the same frame.
pub fn frontend_frame_is_read_in_one_way()
    ensures { (x y : FrontendMessage) → HasFrontendFrame x → HasFrontendFrame y →
        frontend_frame x ≡ frontend_frame y → x ≡ y }
{}

/// A frame carries at most one message of a server: no two messages have the same frame.
pub fn backend_frame_is_read_in_one_way()
    ensures { (x y : BackendMessage) → HasBackendFrame x → HasBackendFrame y →
        backend_frame x ≡ backend_frame y → x ≡ y }
{}

/// Every message has one of the tags that its side may send, so its frame is whole wherever its length fits.
pub fn messages_have_known_tags()
    ensures frontend { (message : FrontendMessage) → IsTrue (is_known frontend_tags (frontend_frame message).tag) }
    ensures backend { (message : BackendMessage) → IsTrue (is_known backend_tags (backend_frame message).tag) }
{}

/// Bytes are cut into whole frames and a rest in one way.
pub fn cutting_is_unique()
    ensures { (tags bytes : List ℕ) (fs gs : List Frame) (r s : List ℕ) →
        Cuts tags bytes fs r → Cuts tags bytes gs s → (fs ≡ gs) × (r ≡ s) }
{}

/// All bytes have whole frames and a rest, and `cut` in `specs/` computes them.
pub fn cutting_is_computed()
    ensures { (tags bytes : List ℕ) → AreBytes bytes →
        Cuts tags bytes (cut tags bytes).0 (cut tags bytes).1 }
{}

/// When more bytes come, the frames so far stay, and the rest is cut as it goes on.
pub fn cutting_goes_on()
    ensures { (tags bytes more : List ℕ) (fs gs : List Frame) (r s : List ℕ) →
        Cuts tags bytes fs r → Cuts tags (r ++ more) gs s → Cuts tags (bytes ++ more) (fs ++ gs) s }
{}

/// Behind the whole frames, a header of an unknown tag, or of a length below four, ends the frames for good.
pub fn bad_header_ends_the_frames()
    ensures unknown { (tags bytes more : List ℕ) (tag : ℕ) → AreBytes (bytes ++ more) →
        BeginsUnknown tags (cut tags bytes).1 tag →
        ((cut tags (bytes ++ more)).0 ≡ (cut tags bytes).0)
        × ((cut tags (bytes ++ more)).1 ≡ (cut tags bytes).1 ++ more) }
    ensures short { (tags bytes more : List ℕ) (tag size : ℕ) → AreBytes (bytes ++ more) →
        BeginsShort tags (cut tags bytes).1 tag size →
        ((cut tags (bytes ++ more)).0 ≡ (cut tags bytes).0)
        × ((cut tags (bytes ++ more)).1 ≡ (cut tags bytes).1 ++ more) }
{}

/// Whole frames that were taken off the beginning of the bytes are the first of their frames, and what is still held is cut into the others.
pub fn taken_frames_come_first()
    ensures { (tags bytes held : List ℕ) (taken fs : List Frame) (r : List ℕ) →
        AllByRecursion (IsWhole tags) taken → bytes ≡ text_of taken ++ held → Cuts tags bytes fs r →
        (gs : List Frame) × (fs ≡ taken ++ gs) × Cuts tags held gs r }
{}

/// Where the bytes sent so far are a prefix of the text of the frames queued, the whole frames in them are the first frames queued.
pub fn sent_frames_come_first()
    ensures { (tags bytes : List ℕ) (fs queued : List Frame) (r : List ℕ) →
        AllByRecursion (IsWhole tags) queued → Cuts tags bytes fs r →
        IsPrefixOf bytes (text_of queued) → IsPrefixOf fs queued }
{}

// Request groups and responses, as pieces of lists.

/// What is heard of some frames and of those behind them is heard one after the other.
pub fn heard_of_joined_frames()
    ensures { (xs ys : List Frame) → heard (xs ++ ys) ≡ heard xs ++ heard ys }
{}

/// Request groups, and responses, hold all frames in their order.
pub fn pieces_hold_all_frames()
    ensures groups { (frames : List Frame) → flat_map (λ group. group) (groups frames) ≡ frames }
    ensures parts { (frames : List Frame) → flat_map (λ part. part) (parts frames) ≡ frames }
{}

/// Behind a frame that ends a group, or a response, the next one begins: what follows is cut for itself.
pub fn pieces_of_joined_frames()
    ensures groups { (xs ys : List Frame) (last : Frame) → ends_group last ≡ true →
        groups (xs ++ last ∷ ys) ≡ groups (xs ++ last ∷ []) ++ groups ys }
    ensures parts { (xs ys : List Frame) (last : Frame) → is_ready last ≡ true →
        parts (xs ++ last ∷ ys) ≡ parts (xs ++ last ∷ []) ++ parts ys }
{}

/// When more frames come, the groups and the responses so far stay, and only the last of them may grow.
pub fn pieces_go_on()
    ensures groups { (frames more : List Frame) → PiecesOf (groups frames) (groups (frames ++ more)) }
    ensures parts { (frames more : List Frame) → PiecesOf (parts frames) (parts (frames ++ more)) }
    ensures replies { (replies more : List BackendMessage) →
        PiecesOf (cut_after says_ready replies) (cut_after says_ready (replies ++ more)) }
{}

// Steps and runs of the server.

/// A run of the server goes on by the step of one more message.
pub fn run_goes_on()
    ensures { (old mid new : Server) (messages : List FrontendMessage) (message : FrontendMessage)
        (rss : List (List BackendMessage)) (rs : List BackendMessage) →
        ServerRun old messages rss mid → ServerStep mid message rs new →
        ServerRun old (messages ++ message ∷ []) (rss ++ rs ∷ []) new }
{}

/// A run over two lists of messages is a run over the first, and one over the second from there.
pub fn run_splits()
    ensures { (old new : Server) (first second : List FrontendMessage) (rss : List (List BackendMessage)) →
        ServerRun old (first ++ second) rss new →
        (mid : Server) × (front further : List (List BackendMessage)) × (rss ≡ front ++ further)
        × ServerRun old first front mid × ServerRun mid second further new }
{}

/// A server has a reply to every message, so a run can always go on.
pub fn server_can_go_on()
    ensures step { (old : Server) (message : FrontendMessage) →
        (rs : List BackendMessage) × (new : Server) × ServerStep old message rs new
        × AllByRecursion HasBackendFrame rs }
    ensures run { (old : Server) (messages : List FrontendMessage) →
        (rss : List (List BackendMessage)) × (new : Server) × ServerRun old messages rss new
        × AllByRecursion HasBackendFrame (flat_map (λ rs. rs) rss) }
{}

/// After ParseComplete the statement stands under its name, with the text of the Parse. A name that is taken isn't parsed again.
pub fn parse_complete_adds_the_statement()
    ensures added { (old new : Server) (name sql types : List ℕ) →
        ServerStep old (frontend.Parse name sql types) (backend.ParseComplete ∷ []) new →
        (fields : List FieldDescription)
        × (statement_at new name ≡ Some (record { sql = sql; fields = fields })) }
    ensures taken { (old new : Server) (name sql types : List ℕ) (s : Statement) →
        name ≢ [] → statement_at old name ≡ Some s →
        ServerStep old (frontend.Parse name sql types) (backend.ParseComplete ∷ []) new → ⊥ }
{}

/// A named statement stays until a Close names it: no other message changes or removes it.
pub fn named_statement_stays_until_closed()
    ensures { (old new : Server) (message : FrontendMessage) (rs : List BackendMessage)
        (b : ℕ) (bs : List ℕ) (s : Statement) →
        statement_at old (b ∷ bs) ≡ Some s → ServerStep old message rs new →
        (statement_at new (b ∷ bs) ≡ Some s) ⊎ (message ≡ frontend.CloseStatement (b ∷ bs)) }
{}

/// What Describe tells of a statement are its columns; NoData tells that it has none.
pub fn description_tells_the_columns()
    ensures columns { (old new : Server) (name types : List ℕ) (fields : List FieldDescription) →
        ServerStep old (frontend.DescribeStatement name)
        (backend.ParameterDescription types ∷ backend.RowDescription fields ∷ []) new →
        (s : Statement) × (statement_at old name ≡ Some s) × (s.fields ≡ fields) }
    ensures no_data { (old new : Server) (name types : List ℕ) →
        ServerStep old (frontend.DescribeStatement name)
        (backend.ParameterDescription types ∷ backend.NoData ∷ []) new →
        (s : Statement) × (statement_at old name ≡ Some s) × (s.fields ≡ []) }
{}

/// A portal has the columns of the statement that it was bound from.
pub fn bind_hands_on_the_columns()
    ensures { (old new : Server) (name : List ℕ) (values : Values) →
        ServerStep old (frontend.Bind name values) (backend.BindComplete ∷ []) new →
        (s : Statement) × (statement_at old name ≡ Some s) × (new.portal ≡ Some s.fields) }
{}

/// Every row of an Execute has a value for each column of its portal.
pub fn row_is_as_wide_as_its_portal()
    ensures { (old new : Server) (portal : List ℕ) (limit : ℕ) (front back : List BackendMessage) (values : Values) →
        ServerStep old (frontend.Execute portal limit) (front ++ backend.DataRow values ∷ back) new →
        (fields : List FieldDescription) × (portal_at old portal ≡ Some fields) × (length values ≡ length fields) }
{}

/// An error within a group of the extended query is the last reply to its message, and what follows is skipped in silence up to a Sync.
pub fn error_is_followed_by_silence()
    ensures begins { (old new : Server) (message : FrontendMessage) (front back : List BackendMessage) (details : List ErrorField) →
        IsInner message → ServerStep old message (front ++ backend.ErrorResponse details ∷ back) new →
        (back ≡ []) × (new.skip ≡ true) }
    ensures lasts { (old new : Server) (message : FrontendMessage) (rs : List BackendMessage) →
        old.skip ≡ true → message ≢ frontend.Sync → message ≢ frontend.Terminate →
        ServerStep old message rs new → (rs ≡ []) × (new ≡ old) }
{}

/// A Query that is answered leaves no unnamed statement and no portal. A Sync ends the skipping, and leaves the portal to an open transaction
/// alone.
pub fn query_and_sync_clear_the_server()
    ensures query { (old new : Server) (sql : List ℕ) (r : BackendMessage) (rs : List BackendMessage) →
        ServerStep old (frontend.Query sql) (r ∷ rs) new → new ≡ record old { unnamed = None; portal = None } }
    ensures sync_idle { (old new : Server) (front : List BackendMessage) →
        ServerStep old frontend.Sync (front ++ backend.ReadyForQuery statuses.Idle ∷ []) new →
        new ≡ record old { skip = false; portal = None } }
    ensures sync_open { (old new : Server) (front : List BackendMessage) (status : TransactionStatus) →
        status ≢ statuses.Idle →
        ServerStep old frontend.Sync (front ++ backend.ReadyForQuery status ∷ []) new →
        new ≡ record old { skip = false } }
{}

/// Terminate isn't answered, and neither is anything behind it.
pub fn server_is_silent_from_terminate_on()
    ensures ends { (old new : Server) (rs : List BackendMessage) →
        ServerStep old frontend.Terminate rs new → (rs ≡ []) × (new.over ≡ true) }
    ensures lasts { (old new : Server) (message : FrontendMessage) (rs : List BackendMessage) →
        old.over ≡ true → ServerStep old message rs new → (rs ≡ []) × (new ≡ old) }
{}

// Replies.

/// The first of some replies are replies too: nothing rests on frames that are still to come.
pub fn replies_are_closed_under_prefixes()
    ensures replies { (sent fewer heard : List Frame) → IsPrefixOf fewer heard →
        AreReplies sent heard → AreReplies sent fewer }
    ensures copy_replies { (sent fewer heard : List Frame) → IsPrefixOf fewer heard →
        AreCopyReplies sent heard → AreCopyReplies sent fewer }
    ensures transaction_replies { (openings : List (List ℕ)) (sent fewer heard : List Frame) → IsPrefixOf fewer heard →
        AreTransactionReplies openings sent heard → AreTransactionReplies openings sent fewer }
    ensures may_hear { (messages : List FrontendMessage) (fewer heard : List Frame) →
        IsPrefixOf fewer heard → MayHear messages heard → MayHear messages fewer }
{}

/// Replies to the frames sent so far may be heard by a client that has queued these messages and perhaps more.
pub fn replies_may_be_heard()
    ensures { (messages : List FrontendMessage) (sent heard : List Frame) →
        AllByRecursion HasFrontendFrame messages → IsPrefixOf sent (map frontend_frame messages) →
        AreReplies sent heard → MayHear messages heard }
{}

/// What a client may hear that has queued some messages is also what it might have heard before it queued the last of them, since it might
/// have gone on so.
pub fn fewer_messages_may_hear_the_same()
    ensures { (messages more : List FrontendMessage) (heard : List Frame) →
        MayHear (messages ++ more) heard → MayHear messages heard }
{}

/// Response k answers group k: the replies to closed groups, cut behind each ReadyForQuery, are one whole response for each group. The frames
/// heard so far are these responses in order, of which the last may have come in part.
pub fn response_answers_its_group()
    ensures run { (old new : Server) (groups : List (List FrontendMessage)) (rss : List (List BackendMessage)) →
        AllByRecursion IsGroup groups → IsBetween old →
        ServerRun old (flat_map (λ group. group) groups) rss new →
        AnswerGroups old groups (cut_after says_ready (flat_map (λ rs. rs) rss)) new }
    ensures frames { (groups : List (List FrontendMessage)) (heard : List Frame) →
        AllByRecursion IsGroup groups → AllByRecursion HasFrontendFrame (flat_map (λ group. group) groups) →
        AreReplies (map frontend_frame (flat_map (λ group. group) groups)) heard →
        (responses : List (List BackendMessage)) × (new : Server) × AnswerGroups fresh_server groups responses new
        × AllByRecursion HasBackendFrame (flat_map (λ response. response) responses)
        × PiecesOf (parts heard) (map (map backend_frame) responses) }
{}

/// Behind as many whole responses as groups, what has come so far begins the response to the next group.
pub fn open_response_begins_its_own()
    ensures { (old after : Server) (groups : List (List FrontendMessage)) (responses : List (List BackendMessage))
        (group more : List FrontendMessage) (begun : List BackendMessage) (rss : List (List BackendMessage)) →
        AllByRecursion IsGroup groups → IsGroup group → IsBetween old →
        ServerRun old (flat_map (λ g. g) groups ++ (group ++ more)) rss after →
        AllByRecursion EndsReady responses → length responses ≡ length groups → AreUnready begun →
        IsPrefixOf (flat_map (λ p. p) responses ++ begun) (flat_map (λ rs. rs) rss) →
        BeginsResponse group begun }
{}

/// The acceptor takes exactly the beginnings of the responses to a Query: what it accepts can be completed, and what it refuses begins none.
pub fn query_responses_are_accepted()
    ensures accepted { (front : List BackendMessage) (then : acceptor.Awaits) →
        acceptor.accepts acceptor.FirstSegment front ≡ Some then →
        (rest : List BackendMessage) × IsQueryResponse (front ++ rest) × AllByRecursion HasBackendFrame rest }
    ensures refused { (front rest : List BackendMessage) →
        acceptor.accepts acceptor.FirstSegment front ≡ None → IsQueryResponse (front ++ rest) → ⊥ }
{}

/// The replies to a single Query are exactly what the acceptor takes.
pub fn replies_to_a_query_are_accepted()
    ensures accepted { (sql : List ℕ) (messages : List BackendMessage) (then : acceptor.Awaits) →
        HasNoNul sql → AllByRecursion HasBackendFrame messages →
        acceptor.accepts acceptor.FirstSegment messages ≡ Some then →
        AreReplies (frontend_frame (frontend.Query sql) ∷ []) (map backend_frame messages) }
    ensures refused { (sql : List ℕ) (messages : List BackendMessage) → AllByRecursion HasBackendFrame messages →
        acceptor.accepts acceptor.FirstSegment messages ≡ None →
        AreReplies (frontend_frame (frontend.Query sql) ∷ []) (map backend_frame messages) → ⊥ }
{}

// What is no reply.

/// No server answers a Query by ReadyForQuery at once.
pub fn bare_ready_is_no_reply()
    ensures { (sql : List ℕ) (status : TransactionStatus) (more : List Frame) →
        AreReplies (frontend_frame (frontend.Query sql) ∷ []) (backend_frame (backend.ReadyForQuery status) ∷ more) → ⊥ }
{}

/// No row of a query has more values, or fewer, than the columns that were described for it.
pub fn row_of_another_width_is_no_reply()
    ensures { (sql : List ℕ) (fields : List FieldDescription) (rows : List Values) (values : Values) →
        AllByRecursion HasBackendFrame (backend.RowDescription fields ∷ map backend.DataRow rows ++ backend.DataRow values ∷ []) →
        length values ≢ length fields →
        AreReplies (frontend_frame (frontend.Query sql) ∷ [])
        (map backend_frame (backend.RowDescription fields ∷ map backend.DataRow rows ++ backend.DataRow values ∷ [])) → ⊥ }
{}

/// An error ends the response to a Query: behind it comes ReadyForQuery, and no further segment.
pub fn segment_after_error_is_no_reply()
    ensures { (sql : List ℕ) (front : List BackendMessage) (details : List ErrorField) (further : BackendMessage) →
        AllByRecursion HasBackendFrame (front ++ backend.ErrorResponse details ∷ further ∷ []) → IsUnready further →
        AreReplies (frontend_frame (frontend.Query sql) ∷ [])
        (map backend_frame (front ++ backend.ErrorResponse details ∷ further ∷ [])) → ⊥ }
{}

// Copies.

/// Replies of a server that never copies are replies of one that may.
pub fn copies_only_add_replies()
    ensures { (sent heard : List Frame) → AreReplies sent heard → AreCopyReplies sent heard }
{}

/// Where no copy begins, a server that may copy does what one does that never copies.
pub fn copies_change_nothing_else()
    ensures { (old : Server) (new : CopyServer) (messages : List FrontendMessage) (rss : List (List BackendMessage)) →
        CopyRun (record { server = old; mode = NotCopying }) messages rss new →
        AllByRecursion IsNoCopy (flat_map (λ rs. rs) rss) →
        ServerRun old messages rss new.server × (new.mode ≡ NotCopying) }
{}

/// A server, copies or not, sends no more ReadyForQuery than it has heard Query and Sync.
pub fn no_more_responses_than_groups()
    ensures { (sent heard : List Frame) → AreCopyReplies sent heard →
        count_by is_ready heard ≤ count_by ends_group sent }
{}

/// Copy data is never answered: not while a copy goes on, not behind an error that ended it, and not where there is none.
pub fn copy_data_has_no_reply()
    ensures { (old new : CopyServer) (bytes : List ℕ) (rs : List BackendMessage) →
        CopyStep old (frontend.CopyData bytes) rs new → (rs ≡ []) × (new ≡ old) }
{}

/// CopyFail ends an open copy by an error: in a Query ReadyForQuery follows at once, behind an Execute the server skips.
pub fn copy_fail_ends_the_copy()
    ensures query { (server : Server) (new : CopyServer) (text : List ℕ) (rs : List BackendMessage) →
        server.over ≡ false → server.skip ≡ false →
        CopyStep (record { server = server; mode = QueryCopies }) (frontend.CopyFail text) rs new →
        (details : List ErrorField) × (status : TransactionStatus)
        × (rs ≡ backend.ErrorResponse details ∷ backend.ReadyForQuery status ∷ [])
        × (new ≡ record { server = server; mode = NotCopying }) }
    ensures execute { (server : Server) (new : CopyServer) (text : List ℕ) (rs : List BackendMessage) →
        server.over ≡ false → server.skip ≡ false →
        CopyStep (record { server = server; mode = ExecuteCopies }) (frontend.CopyFail text) rs new →
        (details : List ErrorField) × (rs ≡ backend.ErrorResponse details ∷ [])
        × (new ≡ record { server = record server { skip = true }; mode = NotCopying }) }
{}

/// There is no reply to a Sync that comes while the client copies: frames with one there aren't replies, whatever follows.
pub fn sync_in_a_copy_has_no_case()
    ensures query { (server : Server) (new : CopyServer) (rs : List BackendMessage) →
        server.over ≡ false → server.skip ≡ false →
        CopyStep (record { server = server; mode = QueryCopies }) frontend.Sync rs new → ⊥ }
    ensures execute { (server : Server) (new : CopyServer) (rs : List BackendMessage) →
        server.over ≡ false → server.skip ≡ false →
        CopyStep (record { server = server; mode = ExecuteCopies }) frontend.Sync rs new → ⊥ }
{}

/// A message that is refused begins no response: behind messages of a response to a Query that were accepted, no server between two groups goes
/// on with a message that may not come there and begins no copy.
pub fn refused_message_begins_no_response()
    ensures { (sql : List ℕ) (own : List BackendMessage) (s : acceptor.Awaits) (frame : Frame) →
        AllByRecursion HasBackendFrame own → acceptor.accepts acceptor.FirstSegment own ≡ Some s →
        IsRefused s frame →
        BeginsCopyResponse (frontend.Query sql ∷ []) (map backend_frame own ++ frame ∷ []) → ⊥ }
{}

/// The response to a Sync begins with ReadyForQuery or an ErrorResponse.
pub fn only_ready_or_error_answers_a_sync()
    ensures { (frame : Frame) → AnswersNoSync frame →
        BeginsCopyResponse (frontend.Sync ∷ []) (frame ∷ []) → ⊥ }
{}

/// What a server that never copies may begin, one that may copy may begin too.
pub fn copies_only_add_responses()
    ensures { (group : List FrontendMessage) (before after : Server) (replies : List (List BackendMessage))
        (frames : List Frame) → IsBetween before → ServerRun before group replies after →
        AllByRecursion HasBackendFrame (flat_map (λ rs. rs) replies) →
        IsPrefixOf frames (map backend_frame (flat_map (λ rs. rs) replies)) →
        BeginsCopyResponse group frames }
{}

// The transaction status.

/// By the rule for the transaction status, only a BEGIN or one of the caller's opening texts, if it goes well, leaves the idle status.
pub fn only_opening_texts_leave_idle()
    ensures query { (openings : List (List ℕ)) (sql : List ℕ) (failed : Bool) (after : TransactionStatus) →
        StatusAfter openings statuses.Idle (Some sql) failed after → after ≢ statuses.Idle →
        (failed ≡ false) × ((sql ≡ codes "BEGIN") ⊎ IsTrue (list_any (bytes_eq sql) openings)) }
    ensures sync { (openings : List (List ℕ)) (failed : Bool) (after : TransactionStatus) →
        StatusAfter openings statuses.Idle None failed after → after ≡ statuses.Idle }
{}

/// By the same rule, a COMMIT or a ROLLBACK that goes well comes back to the idle status.
pub fn commit_and_rollback_end_in_idle()
    ensures commit { (openings : List (List ℕ)) (before after : TransactionStatus) →
        StatusAfter openings before (Some (codes "COMMIT")) false after → after ≡ statuses.Idle }
    ensures rollback { (openings : List (List ℕ)) (before after : TransactionStatus) →
        StatusAfter openings before (Some (codes "ROLLBACK")) false after → after ≡ statuses.Idle }
{}

/// By the same rule, an error in an open transaction fails it, but that a COMMIT may end it so.
pub fn error_fails_the_transaction()
    ensures query { (openings : List (List ℕ)) (before : TransactionStatus) (sql : List ℕ) (after : TransactionStatus) →
        before ≢ statuses.Idle → StatusAfter openings before (Some sql) true after →
        (after ≡ statuses.Error) ⊎ ((sql ≡ codes "COMMIT") × (after ≡ statuses.Idle)) }
    ensures sync { (openings : List (List ℕ)) (before after : TransactionStatus) →
        before ≢ statuses.Idle → StatusAfter openings before None true after → after ≡ statuses.Error }
{}

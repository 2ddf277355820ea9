//! What may come in the response to a request group, as laws of the protocol: each is the contract of a function that does nothing.

ghost use Rattle.std.specs.Prelude.{◌≡◌, ◌≢◌, ℕ, None, List, [], ◌∷◌, ◌++◌, Option, Some, length, map, flat_map};
ghost use Rattle.std.specs.List.{AllByRecursion};
ghost use Rattle.pg_wire.specs.Frame.{Frame};
ghost use Rattle.pg_wire.specs.Frontend.{FrontendMessage};
ghost use Rattle.pg_wire.specs.Frontend as frontend;
ghost use Rattle.pg_wire.specs.Backend.{FieldDescription, Values, BackendMessage, backend_frame, HasBackendFrame};
ghost use Rattle.pg_wire.specs.Backend as backend;
ghost use Rattle.pg_wire.specs.declared.fields.ErrorField.{ErrorField};
ghost use Rattle.pg_wire.specs.declared.status.TransactionStatus.{TransactionStatus};
ghost use Rattle.pg_wire.specs.Server.{Server, IsFree};
ghost use Rattle.pg_wire.specs.Groups.{IsGroup, IsBetween, AnswerGroups};
ghost use Rattle.pg_wire.specs.Copying.{CopyServer, NotCopying, CopyRun};
ghost use Rattle.pg_wire.specs.Acceptor as acceptor;
ghost use Rattle.pg_exchanges.specs.Expecting.{Widths, Step, Expected, InQuery, InSteps, following, behind, expected, AreDistinct, HasWidth, HasWidths, BeginsKnowing, MayNotFollow};
ghost use Rattle.pg_exchanges.specs.Keeping.{Named, Keeps, IsDescribedIn};
ghost use Rattle.pg_exchanges.specs.Answering.{IsNoError, IsKeptBy, described, Tells, DescribeWhole, HasStatement, IsAble, describing, running, parsed_running, closing};

/// A message that is refused begins no response: behind messages that were accepted, no server between two groups that has these statements goes
/// on with a message that may not come there and begins no copy. So a server that keeps to the protocol is never refused.
pub fn refused_message_begins_no_response_to_a_group()
    ensures { (widths : Widths) (group : List FrontendMessage) (own : List BackendMessage) (e : Expected) (frame : Frame) →
        IsGroup group → AllByRecursion HasBackendFrame own → behind (expected widths group) own ≡ Some e →
        MayNotFollow e frame →
        BeginsKnowing widths group (map backend_frame own ++ frame ∷ []) → ⊥ }
{}

/// Messages that are accepted begin a response: of a server that can answer each message of the group and whose statements have these columns,
/// where the messages tell of no others, and no error stands right behind a ParameterDescription.
pub fn accepted_messages_begin_a_response()
    ensures { (fields : List FieldDescription) (inner : List FrontendMessage) (widths : Widths) (server : Server)
        (own : List BackendMessage) (e : Expected) →
        IsBetween server → HasWidths server widths → IsAble fields server inner →
        behind (expected widths (inner ++ frontend.Sync ∷ [])) own ≡ Some e → AllByRecursion HasBackendFrame own →
        AllByRecursion (Tells fields) own → DescribeWhole own →
        BeginsKnowing widths (inner ++ frontend.Sync ∷ []) (map backend_frame own) }
{}

// The kinds of groups that a driver sends: what is accepted begins the response of some server, wherever some server has the widths that are known.

/// To a Query.
pub fn accepted_messages_answer_a_query()
    ensures { (widths : Widths) (server : Server) (sql : List ℕ) (own : List BackendMessage) (e : Expected) →
        IsBetween server → HasWidths server widths →
        behind (expected widths (frontend.Query sql ∷ [])) own ≡ Some e → AllByRecursion HasBackendFrame own →
        BeginsKnowing widths (frontend.Query sql ∷ []) (map backend_frame own) }
{}

/// To Parse, Describe, Sync, but for an error right behind a ParameterDescription.
pub fn accepted_messages_answer_a_describing_group()
    ensures { (widths : Widths) (server : Server) (name sql types : List ℕ) (own : List BackendMessage) (e : Expected) →
        IsBetween server → HasWidths server widths → IsFree server name →
        behind (expected widths (describing name sql types)) own ≡ Some e → AllByRecursion HasBackendFrame own →
        DescribeWhole own →
        BeginsKnowing widths (describing name sql types) (map backend_frame own) }
{}

/// To Bind, Execute, Close, Sync, also where a Parse of the same statement stands in front.
pub fn accepted_messages_answer_a_running_group()
    ensures prepared { (widths : Widths) (server : Server) (name : List ℕ) (values : Values) (limit : ℕ)
        (own : List BackendMessage) (e : Expected) →
        IsBetween server → HasWidths server widths →
        behind (expected widths (running name values limit)) own ≡ Some e → AllByRecursion HasBackendFrame own →
        BeginsKnowing widths (running name values limit) (map backend_frame own) }
    ensures parsed { (widths : Widths) (server : Server) (name sql types : List ℕ) (values : Values) (limit : ℕ)
        (own : List BackendMessage) (e : Expected) →
        IsBetween server → HasWidths server widths → IsFree server name →
        behind (expected widths (parsed_running name sql types values limit)) own ≡ Some e →
        AllByRecursion HasBackendFrame own →
        BeginsKnowing widths (parsed_running name sql types values limit) (map backend_frame own) }
{}

/// To any number of Close, and Sync: without any it is the response to a Sync alone.
pub fn accepted_messages_answer_a_closing_group()
    ensures { (widths : Widths) (server : Server) (names : List (List ℕ)) (own : List BackendMessage) (e : Expected) →
        IsBetween server → HasWidths server widths →
        behind (expected widths (closing names)) own ≡ Some e → AllByRecursion HasBackendFrame own →
        BeginsKnowing widths (closing names) (map backend_frame own) }
{}

/// Each of these groups has a server that can answer it without an error: where a statement of any columns is prepared, one in which its name
/// is free; where one is run, one that has it; where statements are closed, any.
pub fn each_kind_of_group_can_be_answered()
    ensures described { (fields : List FieldDescription) (server : Server) (name sql types : List ℕ) →
        IsFree server name → HasBackendFrame (backend.RowDescription fields) →
        IsAble fields server (frontend.Parse name sql types ∷ frontend.DescribeStatement name ∷ []) }
    ensures run { (fields : List FieldDescription) (server : Server) (name : List ℕ) (values : Values) (limit : ℕ) →
        HasStatement fields server name →
        IsAble fields server (frontend.Bind name values ∷ frontend.Execute [] limit ∷ frontend.ClosePortal [] ∷ []) }
    ensures parsed_and_run { (fields : List FieldDescription) (server : Server) (name sql types : List ℕ) (values : Values) (limit : ℕ) →
        IsFree server name →
        IsAble fields server (frontend.Parse name sql types ∷ frontend.Bind name values ∷ frontend.Execute [] limit ∷ frontend.ClosePortal [] ∷ []) }
    ensures closed { (fields : List FieldDescription) (server : Server) (names : List (List ℕ)) →
        IsAble fields server (map frontend.CloseStatement names) }
{}

/// Widths are known of some server, whatever they are, where each name stands in them once.
pub fn widths_of_distinct_names_can_be_had()
    ensures { (widths : Widths) → AreDistinct widths → (server : Server) × IsBetween server × HasWidths server widths }
{}

/// Widths stay known over messages and whatever is replied to them, copies allowed: those of statements with a name that no message closes.
pub fn known_widths_stay_known()
    ensures { (widths : Widths) (messages : List FrontendMessage) (old new : CopyServer) (rss : List (List BackendMessage)) →
        CopyRun old messages rss new → AllByRecursion (IsKeptBy messages) widths → HasWidths old.server widths →
        HasWidths new.server widths }
{}

/// A width is known behind the response to a group that describes, where it has no error: that of the columns which it describes.
pub fn a_description_makes_a_width_known()
    ensures { (before after : CopyServer) (name sql types : List ℕ) (rss : List (List BackendMessage)) →
        before.mode ≡ NotCopying → IsBetween before.server → CopyRun before (describing name sql types) rss after →
        AllByRecursion IsNoError (flat_map (λ rs. rs) rss) →
        HasWidth after.server (name, length (described (flat_map (λ rs. rs) rss))) }
{}

/// A statement with a name that one of these groups described, without an error, and that none behind it closes, is kept by the server that answers
/// them: under its name, with its text, and with as many columns as were described.
pub fn what_was_described_is_kept()
    ensures { (named : Named) (groups : List (List FrontendMessage)) (responses : List (List BackendMessage)) (old new : Server) →
        named.name ≢ [] → IsBetween old → AllByRecursion IsGroup groups → AnswerGroups old groups responses new →
        IsDescribedIn named groups responses → Keeps new named }
{}

/// An error may come at any point of a response before its ReadyForQuery: in that to a Query, where none came yet, only ReadyForQuery is left
/// behind it; within the steps of a group only the reply to the Sync, and at the Sync only ReadyForQuery.
pub fn an_error_may_come_at_any_point()
    ensures in_a_query { (awaits : acceptor.Awaits) (details : List ErrorField) →
        awaits ≢ acceptor.AfterError → awaits ≢ acceptor.NothingMore →
        following (InQuery awaits) (backend.ErrorResponse details) ≡ Some (InQuery acceptor.AfterError) }
    ensures in_a_step { (step : Step) (steps : List Step) (details : List ErrorField) →
        following (InSteps (step ∷ steps)) (backend.ErrorResponse details) ≡ Some (InSteps []) }
    ensures at_the_sync { (details : List ErrorField) →
        following (InSteps []) (backend.ErrorResponse details) ≡ Some (InQuery acceptor.AfterError) }
{}

/// A response ends with ReadyForQuery, and with no other message; behind it nothing is awaited.
pub fn a_response_ends_with_ready_for_query()
    ensures ends { (e f : Expected) (status : TransactionStatus) →
        following e (backend.ReadyForQuery status) ≡ Some f → f ≡ InQuery acceptor.NothingMore }
    ensures alone { (e : Expected) (message : BackendMessage) →
        following e message ≡ Some (InQuery acceptor.NothingMore) →
        (status : TransactionStatus) × (message ≡ backend.ReadyForQuery status) }
    ensures last { (message : BackendMessage) → following (InQuery acceptor.NothingMore) message ≡ None }
{}

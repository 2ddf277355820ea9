//! Frames of the PostgreSQL wire protocol: cutting, writing and reading them.
#![tactic(auto)]

mod appending;
mod blob;
mod cutting;
mod error;
pub mod exchanges;
mod fields;
mod frame;
mod front;
pub mod laws;
mod message;
mod names;
mod oid;
mod pool;
mod portal_id;
mod reading;
mod report;
mod sequence;
mod severity;
mod statement_id;
mod status;
mod text;

pub use appending::{BODY_MAX, check_body};
pub use blob::Blob;
pub use cutting::cut;
pub use error::{CallerFault, ConfigPart, Error, IoCause, ProtocolFault, ServerFault, TlsCause};
pub use fields::ErrorField;
pub use frame::Frame;
pub use front::Cut;
pub use futures::task::Poll;
pub use message::{
    Authentication, BackendKeyData, CommandComplete, CopyResponseData, DataRow, Field, FormatCodes,
    Mechanisms, Notice, Notification, ParameterStatus, ParseComplete, RowDescription, SslRequest,
    check_data_row, check_row_description, claimed_width, cut_data_row, decode_authentication,
    decode_backend_key_data, decode_bind_complete, decode_close_complete, decode_command_complete,
    decode_copy_data, decode_copy_done, decode_copy_in_response, decode_copy_out_response,
    decode_data_row, decode_empty_query, decode_error_response, decode_no_data,
    decode_notice_response, decode_notification_response, decode_parameter_description,
    decode_parameter_status, decode_parse_complete, decode_portal_suspended,
    decode_ready_for_query, decode_row_description, encode_bind, encode_close_portal,
    encode_close_statement, encode_copy_bytes, encode_copy_done, encode_copy_fail,
    encode_describe_portal, encode_describe_statement, encode_execute, encode_parse,
    encode_password, encode_query, encode_sasl_initial, encode_sasl_response, encode_startup,
    encode_sync, encode_terminate,
};
pub use oid::{Oid, Oids};
pub use pool::{PoolAct, PoolEntry};
pub use portal_id::PortalId;
pub use report::PgDatabaseError;
pub use sequence::Sequence;
pub use severity::PgSeverity;
pub use statement_id::StatementId;
pub use status::TransactionStatus;
pub use text::Text;

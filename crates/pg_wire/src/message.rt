//! One file for each message: what it says, and its bytes.

mod authentication;
mod backend_key_data;
mod bind;
mod close;
mod command_complete;
mod copy_data;
mod copy_done;
mod copy_fail;
mod copy_response;
mod data_row;
mod describe;
mod details;
mod error_response;
mod execute;
mod mechanisms;
mod named;
mod notice_response;
mod notification_response;
mod parameter_description;
mod parameter_status;
mod parse;
mod password;
mod places;
mod query;
mod ready_for_query;
mod row_description;
mod sasl;
mod ssl_request;
mod startup;
mod sync;
mod terminate;
mod without_body;

pub use authentication::{Authentication, decode_authentication};
pub use backend_key_data::{BackendKeyData, decode_backend_key_data};
pub use bind::encode_bind;
pub use close::{encode_close_portal, encode_close_statement};
pub use command_complete::{CommandComplete, decode_command_complete};
pub use copy_data::{decode_copy_data, encode_copy_bytes};
pub use copy_done::encode_copy_done;
pub use copy_fail::encode_copy_fail;
pub use copy_response::{
    CopyResponseData, FormatCodes, decode_copy_in_response, decode_copy_out_response,
};
pub use data_row::{DataRow, check_data_row, claimed_width, cut_data_row, decode_data_row};
pub use describe::{encode_describe_portal, encode_describe_statement};
pub use error_response::decode_error_response;
pub use execute::encode_execute;
pub use mechanisms::Mechanisms;
pub use notice_response::{Notice, decode_notice_response};
pub use notification_response::{Notification, decode_notification_response};
pub use parameter_description::decode_parameter_description;
pub use parameter_status::{ParameterStatus, decode_parameter_status};
pub use parse::encode_parse;
pub use password::encode_password;
pub use query::encode_query;
pub use ready_for_query::decode_ready_for_query;
pub use row_description::{Field, RowDescription, check_row_description, decode_row_description};
pub use sasl::{encode_sasl_initial, encode_sasl_response};
pub use ssl_request::SslRequest;
pub use startup::encode_startup;
pub use sync::encode_sync;
pub use terminate::encode_terminate;
pub use without_body::{
    ParseComplete, decode_bind_complete, decode_close_complete, decode_copy_done,
    decode_empty_query, decode_no_data, decode_parse_complete, decode_portal_suspended,
};

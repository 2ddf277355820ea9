//! What no play tells, and where nobody has failed, each law as the contract of a function that does nothing.
ghost use Rattle.pg_play.specs.Noticed.{NoticesAreFaultless};
ghost use Rattle.pg_play.specs.Refuted.{NoTotalOfZero, NoOkWithoutRow, NoOtherRow};

/// `execute` does not answer the total 0 where its reply counts one row.
pub fn a_total_of_zero_is_no_play()
    ensures { NoTotalOfZero }
{}

/// `fetch_all` does not answer Ok without the row of its reply.
pub fn an_ok_without_the_row_is_no_play()
    ensures { NoOkWithoutRow }
{}

/// `fetch_all` does not show a row that its own reply has not, such as one of a call that was dropped before.
pub fn a_row_of_another_call_is_no_play()
    ensures { NoOtherRow }
{}

/// A reply with asynchronous messages in it is one of a server that keeps the protocol.
pub fn a_reply_with_notices_is_faultless()
    ensures { NoticesAreFaultless }
{}

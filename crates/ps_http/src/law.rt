//! Laws over the definitions.
ghost use Rattle.ps_http.specs.Answer.{OneRequestAnswer, OneResponseAnswer};
ghost use Rattle.ps_http.specs.Sendable.{RequestsReadAgain, ResponsesReadAgain};

/// The bytes of an input decide what reading it comes to, however its source cuts them: a request,
/// nothing, or one refusal; a response, or one refusal.
pub fn law_one_answer()
    ensures request { OneRequestAnswer }
    ensures response { OneResponseAnswer }
{}

/// The bytes that `request_bytes` writes of a request are read again as that request: where its
/// method is a token; its path begins with `/` and has no `?`, blank or control byte; its query, if
/// any, has none of the last two; its peer's mark is well formed; it closes; it has a body only for
/// POST and PUT; the authority is a field's value without white space at its ends; and head and body
/// are within the limits.
pub fn law_requests_read_again()
    ensures { RequestsReadAgain }
{}

/// The bytes that `response_bytes` writes of a response are read again as that response, where the status has three digits, its phrase is one of visible
/// bytes and blanks, there are methods only for 405, a field's value without white space at its
/// ends, and head and body are within the limits.
pub fn law_responses_read_again()
    ensures { ResponsesReadAgain }
{}

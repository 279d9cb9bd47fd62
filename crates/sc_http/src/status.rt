ghost use Rattle.std.specs.Prelude.{◌≡◌, IsTrue};
ghost use Rattle.sc_http.specs.Reply.{phrase, is_status};

/// The phrase of a status.
#[tactic(auto, unfolding(crate::specs::Reply::phrase))]
pub fn phrase_of(status: u16) -> &'static str
    requires { IsTrue (is_status status) }
    ensures { result.now ≡ phrase status }
{
    match status {
        200 => "OK",
        201 => "Created",
        400 => "Bad Request",
        404 => "Not Found",
        405 => "Method Not Allowed",
        409 => "Conflict",
        411 => "Length Required",
        413 => "Payload Too Large",
        431 => "Request Header Fields Too Large",
        500 => "Internal Server Error",
        501 => "Not Implemented",
        _ => "Insufficient Storage",
    }
}

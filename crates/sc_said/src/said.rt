ghost use Rattle.std.specs.Prelude.{◌≡◌, IsTrue, false};
ghost use Rattle.sc_http.specs.Reply.{is_status};

use sc_base::Text;
use std::marker::Model;

/// What a reply says, but for the revision and whether the connection ends after it. Contracts see it as a `Saying`.
#[derive(Debug, Drop)]
pub struct Said {
    pub(crate) status: u16,
    pub(crate) geo: bool,
    pub(crate) allow: Option<Text>,
    pub(crate) body: Text,
}

impl Model for Said {
    ghost use Rattle.std.specs.Prelude.{IsTrue};
    ghost use Rattle.sc_http.specs.Reply.{is_status};
    ghost use Rattle.sc_said.specs.Said.{Saying};

    ghost Value = { Saying };

    ghost view = { λ s. record { status = s.status; geo = s.geo; allow = s.allow; body = s.body } };

    ghost invariant = { λ s. IsTrue (is_status s.status) };
}

impl Said {
    /// What is said with a status, in a body that is GeoJSON or any other JSON.
    pub fn of(status: u16, geo: bool, body: Text) -> Said
        requires { IsTrue (is_status status) }
        ensures { result ≡ record { status = status; geo = geo; allow = None; body = body } }
    {
        Said {
            status,
            geo,
            allow: None,
            body,
        }
    }

    /// What is said of a method that isn't allowed: with the list of those that are.
    pub fn not_allowed(list: Text, body: Text) -> Said
        ensures { result ≡ record { status = 405; geo = false; allow = Some list; body = body } }
    {
        Said {
            status: 405,
            geo: false,
            allow: Some(list),
            body,
        }
    }
}

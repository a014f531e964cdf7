//! Names of users.
ghost use Rattle.std.specs.Prelude.{◌≡◌, ◌↔◌, IsTrue};
ghost use Rattle.std.specs.List.{list_all};
ghost use Rattle.sql_meaning.specs.Requests.{IsUser, starts_user, in_user};

use med_value::limits::NAME_LIMIT;

/// Whether a text is the name of a user.
pub fn is_user(name: &str) -> bool
    ensures { IsTrue result ↔ IsUser name.now }
{
    let bytes = name.as_bytes();
    if bytes.is_empty() || bytes.len() > NAME_LIMIT || !starts_user(bytes[0]) {
        return false;
    }
    if name == "public" || name == "user" || name == "current_user" {
        return false;
    }
    all_in_user(bytes)
}

// Whether each byte may stand in a user's name.
fn all_in_user(bytes: &[u8]) -> bool
    ensures { result ≡ list_all in_user bytes.now }
{
    bytes.iter().all(|b| in_user(*b))
}

// Whether a user's name may begin with the byte: a to z and `_`.
fn starts_user(b: u8) -> bool
    ensures { result ≡ starts_user b }
{
    b.is_ascii_lowercase() || b == b'_'
}

// Whether the byte may stand in a user's name: those and 0 to 9.
fn in_user(b: u8) -> bool
    ensures { result ≡ in_user b }
{
    starts_user(b) || b.is_ascii_digit()
}

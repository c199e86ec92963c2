// Code 2: a client number.
ghost use Rattle.std.specs.Prelude.{◌≡◌};
ghost use Rattle.checks.specs.Answers.{client_check};

use sizes::numbers::Client;

#[tactic(auto, unfolding(crate::specs::Answers::client_check, sizes::specs::Numbers::client_of))]
pub fn check_client(n: u8) -> Option<Client>
    ensures { result ≡ client_check n }
{
    Client::try_from(n).ok()
}

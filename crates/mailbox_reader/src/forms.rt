//! Values of headers that say who did something.
ghost use Rattle.std.specs.Prelude.{◌≡◌};
ghost use Rattle.std.specs.Option.{option_map};
ghost use Rattle.mailbox_laws.specs.Headers.{identity_in};

use stream_fields::parts_of_person;

/// The name and the email of a person, where the text is these and nothing else.
#[tactic(auto, unfolding(mailbox_laws::specs::Headers::identity_in))]
pub fn identity_in(text: &[u8]) -> Option<(&[u8], &[u8])>
    ensures { option_map (λ x. record { name = x.0.now; email = x.1.now }) result ≡ identity_in text.now }
{
    let (name, email, tail) = parts_of_person(text)?;
    if tail.is_empty() && !text.starts_with(b" <") {
        Some((name, email))
    } else {
        None
    }
}

// What a reply of Compare gives, as a number.
ghost use Rattle.std.specs.Prelude.{◌≡◌};
ghost use Rattle.demands.specs.Given.{number_given};

use model::CompareReply;

// Same 0, first better 1, second better 2, unranked 3, refused 4.
pub fn number_given(reply: CompareReply) -> u8
    ensures { result ≡ number_given reply }
{
    match reply {
        Ok(o) => o as u8,
        Err(_) => 4,
    }
}

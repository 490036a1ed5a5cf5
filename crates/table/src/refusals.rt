// A refusal's number and place, as the specification lists them ("What a call refuses").
ghost use Rattle.std.specs.Prelude.{◌≡◌};
ghost use Rattle.model.specs.Replies.{listed};

use model::Refusal;

// The refusal's number in the table.
// As it is: no derive numbers variants that have a field, and an arm for each refusal is the specification's own table.
pub fn number(why: Refusal) -> u32
    ensures { result ≡ (listed why).number }
{
    match why {
        Refusal::Width => 1,
        Refusal::Length => 2,
        Refusal::Kind(_) => 3,
        Refusal::Filler(_) => 4,
        Refusal::Column(_) => 5,
        Refusal::Part(_) => 6,
        Refusal::Reused(_) => 7,
        Refusal::Stray(_) => 8,
        Refusal::Crowd(_) => 9,
        Refusal::Clash(_) => 10,
        Refusal::Loop(_) => 11,
        Refusal::Bounds(_) => 12,
        Refusal::Apart(_) => 13,
        Refusal::Loose(_) => 14,
        Refusal::Rows => 15,
        Refusal::Term => 16,
        Refusal::Group => 17,
        Refusal::Short => 18,
    }
}

// The record that the refusal names: 3 to 14 give one.
pub fn place(why: Refusal) -> Option<u8>
    ensures { result ≡ (listed why).place }
{
    match why {
        Refusal::Kind(k)
        | Refusal::Filler(k)
        | Refusal::Column(k)
        | Refusal::Part(k)
        | Refusal::Reused(k)
        | Refusal::Stray(k)
        | Refusal::Crowd(k)
        | Refusal::Clash(k)
        | Refusal::Loop(k)
        | Refusal::Bounds(k)
        | Refusal::Apart(k)
        | Refusal::Loose(k) => Some(k),
        Refusal::Width
        | Refusal::Length
        | Refusal::Rows
        | Refusal::Term
        | Refusal::Group
        | Refusal::Short => None,
    }
}

// What a record's outcome tells of the asked term's: its mask. Each function asks what the check has shown before. Codes: same
// 0, first better 1, second better 2, unranked 3.
ghost use Rattle.std.specs.Prelude.{◌≡◌, ◌<◌};
ghost use Rattle.plan.specs.Told.{is_nothing, wholly_code, told_code, turned_mask, part_mask, own_mask};
ghost use Rattle.plan.specs.Told.{mask_number, told_by_number, turned_number, part_number, own_number};

use terms::codes::turned_code;

// Nothing; or that the bits of its code are among those of the asked term's; or that they are so with first and second better
// exchanged; or, `All` and `TurnedAll`, the same, and if the code is not same, that the asked term's has no others.
#[derive(Clone, Copy, PartialEq, Eq)]
pub enum Exit {
    Nothing,
    Bits,
    TurnedBits,
    All,
    TurnedAll,
}

impl Exit {
    pub fn is_nothing(self) -> bool
        ensures { result ≡ is_nothing self }
    {
        matches!(self, Exit::Nothing)
    }

    // What a record of this mask and code c tells: bits that the asked term's code has; 4 more where these are all.
    // Always inlined, and three short choices, not one of five: each meeting of two rows calls it for each record. Most
    // records tell nothing, which is asked first.
    #[inline(always)]
    #[tactic(auto, using(crate::proofs::Bits::turned_low), unfolding(crate::specs::Told::told_code))]
    pub fn told(self, c: u8) -> u8
        requires { c < 4 }
        ensures { result ≡ told_code self c }
    {
        if matches!(self, Exit::Nothing) {
            return 0;
        }
        let code = match self {
            Exit::TurnedBits | Exit::TurnedAll => turned_code(c),
            _ => c,
        };
        match self {
            Exit::All | Exit::TurnedAll => wholly(code),
            _ => code,
        }
    }

    // The mask of a DUAL's part.
    pub fn turned(self) -> Exit
        ensures { result ≡ turned_mask self }
    {
        match self {
            Exit::Nothing => Exit::Nothing,
            Exit::Bits => Exit::TurnedBits,
            Exit::TurnedBits => Exit::Bits,
            Exit::All => Exit::TurnedAll,
            Exit::TurnedAll => Exit::All,
        }
    }

    // The mask of a part of a PARETO or BOTH,
    pub fn part(self) -> Exit
        ensures { result ≡ part_mask self }
    {
        match self {
            Exit::All => Exit::Bits,
            Exit::TurnedAll => Exit::TurnedBits,
            _ => self,
        }
    }

    // and what is left to the PARETO or BOTH itself.
    pub fn own(self) -> Exit
        ensures { result ≡ own_mask self }
    {
        match self {
            Exit::Bits | Exit::TurnedBits => Exit::Nothing,
            _ => self,
        }
    }

    // The number that stands for it where a mask is a byte.
    pub fn number(self) -> u8
        ensures { result ≡ mask_number self }
    {
        match self {
            Exit::Nothing => 0,
            Exit::Bits => 1,
            Exit::TurnedBits => 2,
            Exit::All => 5,
            Exit::TurnedAll => 6,
        }
    }
}

// ---- the same of a mask that is a byte, by its number (`Exit::number`); other bytes tell nothing
// As it is: numbers, though `Exit` is plainer: what may not change, since each of these four is promised of any number.

#[tactic(auto, using(crate::proofs::Bits::turned_low), unfolding(crate::specs::Told::told_by_number))]
pub fn told(m: u8, c: u8) -> u8
    requires { c < 4 }
    ensures { result ≡ told_by_number m c }
{
    match m {
        1 => c,
        2 => turned_code(c),
        5 => wholly(c),
        6 => wholly(turned_code(c)),
        _ => 0,
    }
}

#[tactic(auto, unfolding(crate::specs::Told::turned_number))]
pub fn turned_mask(m: u8) -> u8
    ensures { result ≡ turned_number m }
{
    match m {
        1 => 2,
        2 => 1,
        5 => 6,
        6 => 5,
        _ => 0,
    }
}

#[tactic(auto, unfolding(crate::specs::Told::part_number))]
pub fn part_mask(m: u8) -> u8
    ensures { result ≡ part_number m }
{
    match m {
        5 => 1,
        6 => 2,
        other => other,
    }
}

#[tactic(auto, unfolding(crate::specs::Told::own_number))]
pub fn own_mask(m: u8) -> u8
    ensures { result ≡ own_number m }
{
    if m < 4 { 0 } else { m }
}

fn wholly(c: u8) -> u8
    requires { c < 4 }
    ensures { result ≡ wholly_code c }
{
    if c == 0 { 0 } else { c + 4 }
}
